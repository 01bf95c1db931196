// A caller of the functions whose contracts are the claims about the saved text: what follows of the two public calls, of which the contracts say that
// they answer `written` and `read_into`. It answers 0.
#![tactic(auto)]

ghost use Rattle.std.specs.Prelude.{◌≡◌};
ghost use Rattle.client_save.specs.Saved.{SavedReadsBack};

// What is written of a well-shaped state, on a page that has room for every text, is read back as that state.
pub fn saved_reads_back() -> u8
    ensures { (result ≡ 0) × SavedReadsBack }
{
    save_text::none_longer();
    save_text::read_back()
}
