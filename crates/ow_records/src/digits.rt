// Numbers of 64 bits as hexadecimal digits.
ghost use Rattle.std.specs.Prelude.{◌≡◌};
ghost use Rattle.ow_records.specs.Id.{hex_16, hex_number};

/// Sixteen lower-case digits.
pub(crate) fn hex_16(number: u64) -> [u8; 16]
    ensures { result ≡ hex_16 number }
{
    let mut digits = [0; 16];
    let _ = hex::encode_to_slice(number.to_be_bytes(), &mut digits);
    digits
}

/// The number of sixteen digits, of either case.
pub(crate) fn hex_number(digits: &[u8]) -> Option<u64>
    ensures { result ≡ hex_number digits.now }
{
    let mut bytes = [0; 8];
    match hex::decode_to_slice(digits, &mut bytes) {
        Ok(()) => Some(u64::from_be_bytes(bytes)),
        Err(_) => None,
    }
}
