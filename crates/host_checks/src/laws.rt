//! A law of what checking a host comes to, the contract of a function that does nothing: it calls
//! the law on which its proof rests.

ghost use Rattle.std.specs.Prelude.{◌≡◌, ℕ, List, Result};
ghost use Rattle.load_model.specs.World.{World};
ghost use Rattle.refusals.specs.declared.refusal.Refusal.{Refusal};
ghost use Rattle.host_checks.specs.Hosting.{HostCheck};

use host_record::one_reading;

/// In a world, the check of a place with some directories comes to one outcome at most.
pub fn one_host_check()
    ensures { (world : World) (place : List ℕ) (dirs : List (List ℕ))
        (one other : Result (List ℕ) Refusal)
        → HostCheck world place dirs one → HostCheck world place dirs other → one ≡ other }
{
    one_reading();
}
