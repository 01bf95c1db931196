// What an event leaves of a state's shape, also of a state that no run reaches. The claims are the contracts of functions, so that they are checked
// with the code and show in the list of proved functions. Each answers 0.
#![tactic(auto)]

ghost use Rattle.std.specs.Prelude.{◌≡◌};
ghost use Rattle.model_shaped.specs.Kept.{ShapeKeptAt, ShapeKept, RunsPlayable, ShapeLost};
ghost use Rattle.model_shaped.specs.Numbered.{FailsNumbered};

// A well-shaped state whose arbiters have granted stays one, and every state of a run is one.
pub fn shape_kept() -> u8
    ensures { (result ≡ 0) × ShapeKeptAt × ShapeKept × RunsPlayable }
{
    0
}

// A well-shaped state with an arbiter that has not granted may become misshapen.
pub fn shape_lost() -> u8
    ensures { (result ≡ 0) × ShapeLost }
{
    0
}

// No fail that an event on a well-shaped state sends is numbered 0.
pub fn fails_numbered() -> u8
    ensures { (result ≡ 0) × FailsNumbered }
{
    0
}
