// Ids as they are written, in lower case.
ghost use Rattle.std.specs.Prelude.{◌≡◌, length};
ghost use Rattle.std.specs.Int.{from_be_bytes, w64};
ghost use Rattle.std.specs.Str.{bytes_eq};
ghost use Rattle.hex.specs.Hex.{encode_lower};
ghost use Rattle.ow_records.specs.LowerId.{id_of_bytes};

use crate::ids::Id;

impl Id {
    ghost use Rattle.ow_records.specs.LowerId.{id_of_lower};

    /// The id of thirty-two lower-case hexadecimal digits.
    #[tactic(auto, unfolding(crate::specs::LowerId::id_of_lower))]
    pub fn of_lower(text: &[u8]) -> Option<Id>
        ensures { result ≡ id_of_lower text.now }
    {
        let mut bytes = [0u8; 16];
        if hex::decode_to_slice(text, &mut bytes).is_err() {
            return None;
        }
        if has_digits(&bytes, text) {
            Some(id_of_bytes(&bytes))
        } else {
            None
        }
    }
}

// Whether the text has the lower-case digits of the bytes.
fn has_digits(bytes: &[u8; 16], text: &[u8]) -> bool
    ensures { result ≡ bytes_eq (encode_lower bytes.now) text.now }
{
    let mut digits = [0u8; 32];
    let _ = hex::encode_to_slice(bytes.as_slice(), &mut digits);
    digits.as_slice() == text
}

fn id_of_bytes(bytes: &[u8; 16]) -> Id
    ensures { result ≡ id_of_bytes bytes.now }
{
    Id {
        namespace: number_in(&bytes[..8]),
        count: number_in(&bytes[8..]),
    }
}

// The number of eight bytes, the greatest first.
fn number_in(bytes: &[u8]) -> u64
    requires { length bytes.now ≡ 8 }
    ensures { result ≡ from_be_bytes w64 bytes.now }
{
    let mut number = [0u8; 8];
    number.copy_from_slice(bytes);
    u64::from_be_bytes(number)
}
