// Join, leave, grant and revoke: the rights register in the settings table.
#![tactic(auto)]

ghost use Rattle.std.specs.Prelude.{◌≡◌};
ghost use Rattle.meaning.specs.Rights.{change_in_range};
ghost use Rattle.promises.specs.Calls.{RightsPromise};
ghost use Rattle.refusals.specs.Refusals.{answer_number};
ghost use Rattle.register.specs.Register.{register_number};
ghost use Rattle.rights.specs.Changes.{change_meant};

use refusals::Refusal;
use rights::Change;

// Questions 5, 6 and 7: are the numbers of the change in range?
#[tactic(auto, unfolding(crate::specs::Register::register_number))]
fn admit(settings: &[u32], change: Change) -> Result<(), Refusal>
    ensures { answer_number result ≡ register_number settings.now (change_in_range (change_meant change)) }
{
    settings::opening(settings)?;
    if !rights::is_in_range(change) {
        return Err(Refusal::OutOfRange);
    }
    Ok(())
}

// Makes the change, if no question says no. Inline: each call for C then has the one change that it makes.
#[inline(always)]
pub fn change(settings: &mut [u32], change: Change) -> Result<(), Refusal>
    ensures { RightsPromise (change_meant change) settings.old (answer_number result) settings.new }
{
    admit(settings, change)?;
    rights::make_change(settings, change);
    Ok(())
}
