// The check program: reads schema.txt and proof.txt, prints the verdict, and shows the line that a refusal points to.
#![tactic(auto)]

use std::io;
use std::io::Print;

fn main(rt: HostRuntime) -> io::Result<()> {
    let mut schema = files::room();
    let mut proof = files::room();
    let s = files::load(&rt, b"schema.txt", &mut schema);
    let p = files::load(&rt, b"proof.txt", &mut proof);
    let mut out = [0u8; 64];
    let told = program::check_texts(false, &schema[..s], &proof[..p], &mut out);
    let n = told.bytes;
    let printed = Print::write_all(&rt, &out[..n]);
    files::show(
        &rt.stderr(),
        b"schema.txt",
        b"proof.txt",
        &schema[..s],
        &proof[..p],
        told.fault,
    );
    printed
}
