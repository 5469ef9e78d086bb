// Numbers as bytes, low byte first.
ghost use Rattle.std.specs.Prelude.{◌≡◌, ◌+◌, ◌≤◌, ◌<◌, ◌^◌, length};
ghost use Rattle.std.proofs.Math.Seq.{paste};
ghost use Rattle.records.specs.Bytes.{bytes_of, field};

// The number of `width` bytes that stands at place `at`.
pub fn read(file: &[u8], at: usize, width: usize) -> u64
    requires { (at + width ≤ length file.now) × (width ≤ 8) }
    ensures { (result ≡ field file.now at width) × (result < 256 ^ width) }
{
    let mut bytes = [0; 8];
    bytes[..width].copy_from_slice(&file[at..at + width]);
    u64::from_le_bytes(bytes)
}

// The number's `width` bytes, from place `at` on. By hand: std's `to_le_bytes` gives eight of them, and this any width.
pub fn put(file: &mut [u8], at: usize, width: usize, v: u64)
    requires { at + width ≤ length file.old }
    ensures { file.new ≡ paste file.old at (bytes_of width v) width }
{
    let mut rest = v;
    let bytes = &mut file[at..at + width];
    for byte in bytes.iter_mut() {
        *byte = (rest % 256) as u8;
        rest /= 256;
    }
}
