// The model check program: reads schema.txt and model.txt, prints the verdict, and shows the line that a refusal points to.
#![tactic(auto)]

use std::io;
use std::io::Print;

fn main(rt: HostRuntime) -> io::Result<()> {
    let mut schema = files::room();
    let mut model = files::room();
    let s = files::load(&rt, b"schema.txt", &mut schema);
    let m = files::load(&rt, b"model.txt", &mut model);
    let mut out = [0u8; 64];
    let told = program::model_texts(&schema[..s], &model[..m], &mut out);
    let n = told.bytes;
    let printed = Print::write_all(&rt, &out[..n]);
    files::show(
        &rt.stderr(),
        b"schema.txt",
        b"model.txt",
        &schema[..s],
        &model[..m],
        told.fault,
    );
    printed
}
