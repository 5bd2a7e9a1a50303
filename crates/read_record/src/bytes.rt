// Numbers in a file, high byte first. Each asks that its bytes are there. (from_be_bytes would have to be handed an array made of them first.)
ghost use Rattle.std.specs.Prelude.{◌≡◌, ◌+◌, ◌≤◌, ◌<◌, length};
ghost use Rattle.paper_book.specs.Bytes as B;

pub fn byte(file: &[u8], at: usize) -> usize
    requires { at < length file.now }
    ensures value { result ≡ B.byte file.now at }
    ensures small { result < 256 }
{
    usize::from(file[at])
}

pub fn two(file: &[u8], at: usize) -> usize
    requires { at + 2 ≤ length file.now }
    ensures value { result ≡ B.two file.now at }
    ensures small { result < 65536 }
{
    let high = byte(file, at);
    let low = byte(file, at + 1);
    high * 256 + low
}

pub fn four(file: &[u8], at: usize) -> usize
    requires { at + 4 ≤ length file.now }
    ensures { result ≡ B.four file.now at }
{
    let high = two(file, at);
    let low = two(file, at + 2);
    high * 65536 + low
}

// Whether the n bytes from an offset on are all 0.
pub fn blank(file: &[u8], at: usize, n: usize) -> bool
    requires { at + n ≤ length file.now }
    ensures { result ≡ B.blank file.now at n }
{
    for i in 0..n {
        if byte(file, at + i) != 0 {
            return false;
        }
    }
    true
}
