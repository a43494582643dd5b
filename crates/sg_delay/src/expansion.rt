// The delays of the twelve transitions, from the lists that spell them.
ghost use Rattle.std.specs.Prelude.{◌≡◌, ◌↔◌, IsOk, length};
ghost use Rattle.std.specs.List.{Contains};
ghost use Rattle.sg_delay.specs.Expansion.{delays_of, list_lengths, of_six, six};

use thiserror::Error;

/// A delay for each transition, in ticks, in the order of `Trans`.
#[derive(Clone, Copy, Debug, PartialEq, Eq)]
pub struct Delays12 {
    pub at: [u64; 12],
}

/// Why a list spells no delays.
#[derive(Clone, Copy, Debug, PartialEq, Eq, Error)]
pub enum DelayError {
    #[error("not 1, 2, 3, 6 or 12 delays")]
    BadCount,
}

// The delays between 0, 1 and z for each length of a list, in the order 01, 10, 0z, z1, 1z, z0, and from them those to
// and from x.
macro_rules! expansions {
    ($list:expr; $($($given:ident)+: $t01:ident $t10:ident $t0z:ident $tz1:ident $t1z:ident $tz0:ident;)+) => {
        match $list {
            $([$($given),+] => Ok(Delays12 {
                at: [
                    *$t01,
                    *$t10,
                    *$t0z,
                    *$tz1,
                    *$t1z,
                    *$tz0,
                    u64::min(*$t0z, *$t01),
                    u64::max(*$tz1, *$t01),
                    u64::min(*$t1z, *$t10),
                    u64::max(*$tz0, *$t10),
                    u64::max(*$t1z, *$t0z),
                    u64::min(*$tz1, *$tz0),
                ],
            }),)+
            _ => Err(DelayError::BadCount),
        }
    };
}

fn from_six(list: &[u64]) -> Result<Delays12, DelayError>
    ensures { result ≡ of_six (six list.now) }
{
    expansions! { list;
        all: all all all all all all;
        rise fall: rise fall rise rise fall fall;
        rise fall off: rise fall off rise off fall;
        t01 t10 t0z tz1 t1z tz0: t01 t10 t0z tz1 t1z tz0;
    }
}

/// The delays of all transitions, from a list of 1, 2, 3, 6 or 12: of all; of rises and falls; of rises, falls and turns
/// to z; of the changes between 0, 1 and z; of all transitions in the order of `Trans`. Else BadCount.
pub fn expand(list: &[u64]) -> Result<Delays12, DelayError>
    ensures delays { result ≡ delays_of list.now }
    ensures count { IsOk result ↔ Contains list_lengths (length list.now) }
{
    match <[u64; 12]>::try_from(list) {
        Ok(at) => Ok(Delays12 { at }),
        Err(_) => from_six(list),
    }
}
