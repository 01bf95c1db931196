// A caller of the planner: its promise follows from the contracts of `plan_text::plan` and of the calls that read a word alone.
#![tactic(auto)]

ghost use Rattle.std.specs.Prelude.{◌≡◌};
ghost use Rattle.client_plan.specs.Whole.{grid_output, grid_page};

use plan_lines::PlanPage;
use plan_numbers::{nothing_given, with_word};
use plan_text::{Output, plan};

// Plans a grid of the side that a word says: where its text goes, how long it is, and every byte of the page.
pub fn plan_grid(side: &[u8], page: &mut PlanPage) -> Output
    ensures { (result ≡ grid_output side.now) × (page.new ≡ grid_page side.now page.old) }
{
    plan(b"grid", with_word(nothing_given(), side), page)
}
