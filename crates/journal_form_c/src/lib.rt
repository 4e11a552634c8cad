// The form of a command for C.
#![tactic(auto)]

ghost use Rattle.std.specs.Prelude.{◌≡◌};
ghost use Rattle.meaning.specs.Journal.{form as form_number};

use refusals::answer_number;

#[unsafe(no_mangle)]
pub extern "C" fn vetch_form(m: u8, first: u8, bytes: &[u8]) -> u32
    ensures { result ≡ form_number m first bytes.now }
{
    answer_number(journal_form::form(m, first, bytes))
}
