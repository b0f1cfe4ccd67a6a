// Worked examples of the layers: proved of the definitions, and run over the public calls.
#![tactic(auto)]

ghost use Rattle.std.specs.Prelude.{◌≡◌};
ghost use Rattle.checks.specs.Traces.{Traces};

#[cfg(test)]
mod laid;
#[cfg(test)]
mod ring_kinds;
#[cfg(test)]
mod selector_values;
#[cfg(test)]
mod table_faults;
#[cfg(test)]
mod table_reading;

// The worked examples hold of the definitions that the contracts cite; tells how many there are.
pub fn traces_hold() -> u8
    ensures traces { Traces }
    ensures count { result ≡ 12 }
{
    12
}
