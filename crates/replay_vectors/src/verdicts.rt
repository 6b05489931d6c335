// What a replay of a case finds.
ghost use Rattle.std.specs.Prelude.{◌≡◌, true, false, Ok, Err};
ghost use Rattle.replay_vectors.specs.declared.verdicts.Fault.TheVariants.{Failed};

// Why a case does not pass.
#[derive(Clone, Copy, Debug, PartialEq, Eq)]
pub enum Fault {
    Failed,
    Malformed,
}

// Passed where a test holds, and failed where not.
pub fn judged(is_passed: bool) -> Result<(), Fault>
    ensures passed { is_passed ≡ true → result ≡ Ok tt }
    ensures failed { is_passed ≡ false → result ≡ Err Failed }
{
    if is_passed {
        Ok(())
    } else {
        Err(Fault::Failed)
    }
}
