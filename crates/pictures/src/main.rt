//! Prints every small picture, a line each.
#![tactic(auto)]

use std::io;

fn main(rt: HostRuntime) -> io::Result<()> {
    let text = pictures_text::pictures(rt.alloc())?;
    rt.write_all(text.as_slice())
}
