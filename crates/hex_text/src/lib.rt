// Bytes written as text: two hexadecimal digits for each byte, upper or lower case, parted by one space.
#![tactic(auto)]

ghost use Rattle.std.specs.Prelude.{◌≡◌, ◌⊎◌, MatchOption};
ghost use Rattle.hex_text.specs.declared.HexError.TheVariants.{NoMemory};
ghost use Rattle.hex_text.specs.Hex.{Digit, NoDigit, Pair, Reads, UniqueReading};

use std::alloc::{AllocFailed, Global};
use thiserror::Error;

// Why a line was not read.
#[derive(Clone, Copy, PartialEq, Eq, Debug, Error)]
pub enum HexError {
    #[error("not bytes")]
    NotBytes,
    #[error("out of memory")]
    NoMemory,
}

// By hand and not by thiserror, which does not say which error it makes.
impl<T: Drop> From<AllocFailed<T>> for HexError {
    ghost from_gives = { λ _ e. e ≡ NoMemory };

    fn from(_: AllocFailed<T>) -> HexError {
        HexError::NoMemory
    }
}

// The value of a hexadecimal digit.
fn digit(code: u8) -> Option<u8>
    ensures { MatchOption result (NoDigit code) (λ v. Digit code v) }
{
    u8::try_from(char::from(code).to_digit(16)?).ok()
}

// The byte that two digits stand for.
fn byte(high: u8, low: u8) -> Option<u8>
    ensures { MatchOption result (NoDigit high ⊎ NoDigit low) (λ b. Pair high low b) }
{
    Some(digit(high)? * 16 + digit(low)?)
}

// The bytes whose text the line is.
pub fn read(heap: Global, line: &[u8]) -> Result<Vec<u8>, HexError>
    ensures { Reads line.now result }
{
    let mut bytes = Vec::new(heap);
    if line.is_empty() {
        return Ok(bytes);
    }
    // A space stands only before another byte, so from here on a byte has to come first.
    let mut rest = line;
    while let [high, low, more @ ..] = rest {
        bytes.push(byte(*high, *low).ok_or(HexError::NotBytes)?)?;
        match more {
            [] => return Ok(bytes),
            [b' ', after @ ..] => rest = after,
            _ => return Err(HexError::NotBytes),
        }
    }
    Err(HexError::NotBytes)
}

// A line is the text of at most one list of bytes.
#[tactic(auto, using(crate::proofs::Texts::unique))]
pub fn reading_is_unique()
    ensures { UniqueReading }
{}

#[cfg(test)]
mod tests {
    use super::*;
    use std::test::Fail;

    #[test]
    fn reads_both_cases(rt: HostRuntime) -> Result<(), Fail> {
        let bytes = read(rt.alloc(), b"00 fF A9")?;
        assert!(rt; bytes.len() == 3);
        assert!(rt; bytes[0] == 0);
        assert!(rt; bytes[1] == 255);
        assert!(rt; bytes[2] == 169);
        Ok(())
    }

    #[test]
    fn tells_what_is_a_text(rt: HostRuntime) -> Result<(), Fail> {
        assert!(rt; read(rt.alloc(), b"")?.is_empty());
        assert!(rt; matches!(read(rt.alloc(), b"0"), Err(HexError::NotBytes)));
        assert!(rt; matches!(read(rt.alloc(), b"0g"), Err(HexError::NotBytes)));
        assert!(rt; matches!(read(rt.alloc(), b"0011"), Err(HexError::NotBytes)));
        assert!(rt; matches!(read(rt.alloc(), b"00 "), Err(HexError::NotBytes)));
        assert!(rt; matches!(read(rt.alloc(), b"00  11"), Err(HexError::NotBytes)));
        Ok(())
    }
}
