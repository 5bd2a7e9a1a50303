// The printing program: reads a book from standard input to its end and writes its plan, or its refusal, to standard output. The work is `page_book::page`'s.
#![tactic(auto)]

use std::io;
use std::io::{Read, Write};

fn main(rt: HostRuntime) -> io::Result<()> {
    // more bytes than any book has: a longer input is refused by its length
    let mut input = [0u8; 8192];
    // how many bytes were read so far: no index, and the input says when it ends
    let mut n = 0;
    let mut stdin = rt.stdin();
    while n < 8192 {
        // a read that fails is no end: what was read may be a part of a book, and nothing is written
        let got = stdin.read(&mut input[n..])?;
        if got == 0 {
            break;
        }
        n += got;
    }
    let mut out = [0u8; 4096];
    let r = page_book::page(&input[..n], &mut out);
    rt.stdout().write_all(&out[..r])
}
