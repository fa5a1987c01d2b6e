// Two values of which the second may be missing.

ghost use Rattle.std.specs.Prelude.{◌≡◌, IfOk, IfErr, Ok, Err};

/// The first beside what the second holds, or why the second holds nothing.
pub fn both<T: Drop, U, E>(first: T, second: Result<U, E>) -> Result<(T, U), E>
    ensures ok { IfOk result (λ b. (b.0 ≡ first) × (second ≡ Ok b.1)) }
    ensures err { IfErr result (λ e. second ≡ Err e) }
{
    match second {
        Ok(second) => Ok((first, second)),
        Err(fault) => Err(fault),
    }
}
