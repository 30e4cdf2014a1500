//! Names against digests that another program spelled.

use object_name::Name;
use std::test::Fail;

// The two texts show each of the 64 characters. The digests were computed by another program.
const SPELLED: [(&[u8], [u8; 32]); 2] = [
    (
        b"VABCDEFGHIJKLMNOPQRSTUVWXYZabcdefghijklmnops00000000",
        [
            0, 16, 131, 16, 81, 135, 32, 146, 139, 48, 211, 143, 65, 20, 147, 81, 85, 151, 97, 150,
            155, 113, 215, 159, 130, 24, 163, 146, 89, 167, 162, 155,
        ],
    ),
    (
        b"T_-9876543210zyxwvutsrqponmlkjihgfedcbaZYXWU00000000",
        [
            255, 239, 124, 239, 174, 120, 223, 109, 116, 207, 44, 112, 190, 235, 108, 174, 170,
            104, 158, 105, 100, 142, 40, 96, 125, 231, 92, 109, 166, 88, 93, 101,
        ],
    ),
];

#[test]
fn url_safe_alphabet_is_rfc4648(rt: HostRuntime) -> Result<(), Fail> {
    for (text, digest) in SPELLED {
        let name = Name::read(text).ok_or("a name")?;
        assert_eq!(rt; name.digest(), digest);
    }
    Ok(())
}
