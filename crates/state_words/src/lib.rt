// What the words of the program `state` ask: `save`, `save SAVED`, `play SAVED`.
#![tactic(auto)]

ghost use Rattle.std.specs.Prelude.{◌≡◌};
ghost use Rattle.state_words.specs.Words.{alone, with_file, command_of};

// What is asked: to play a whole text and save, to go on from a saved text and save, or to go on from one and print the lines.
#[derive(Clone, Copy)]
pub enum Command {
    Save,
    SaveFrom,
    PlayFrom,
}

// What a command of `count` words asks, its own name among them, whose first word behind its name is given: nothing, where the words are wrong.
#[tactic(auto, using(std::proofs::lemmas::Bool::Decides::nat_tests), unfolding(crate::specs::Words::command_of))]
pub fn command_of(count: usize, word: &[u8]) -> Option<Command>
    ensures { result ≡ command_of count word.now }
{
    match count {
        2 => alone(word),
        3 => with_file(word),
        _ => None,
    }
}

// A word by itself.
#[tactic(auto, using(std::proofs::lemmas::Bool::Decides::nat_tests, player_bytes::proofs::ByBytes::same_reads), unfolding(crate::specs::Words::alone))]
fn alone(word: &[u8]) -> Option<Command>
    ensures { result ≡ alone word.now }
{
    match word {
        b"save" => Some(Command::Save),
        _ => None,
    }
}

// A word with the name of a file.
#[tactic(auto, using(std::proofs::lemmas::Bool::Decides::nat_tests, player_bytes::proofs::ByBytes::same_reads), unfolding(crate::specs::Words::with_file))]
fn with_file(word: &[u8]) -> Option<Command>
    ensures { result ≡ with_file word.now }
{
    match word {
        b"save" => Some(Command::SaveFrom),
        b"play" => Some(Command::PlayFrom),
        _ => None,
    }
}
