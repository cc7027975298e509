// A schedule that is written.
use schedule_text::{read_schedule, write_schedule};
use std::test::Fail;

// Each item, as `write_schedule` writes it.
const WRITTEN: &[u8] =
    b"friday 1\nprocess a a.wasm\nprocess b b.wasm\nrun 0 0\nrun 1 63 2\ndeliver 0 1\n\
    inject 1 00ff\ninject 1 -\nclock 0 -5\nrandom 0 a1\nkill 1\n";

#[test]
fn a_schedule_is_written_as_it_was_read(rt: HostRuntime) -> Result<(), Fail> {
    let schedule = read_schedule(rt.alloc(), WRITTEN)?;
    let text = write_schedule(rt.alloc(), &schedule)?;
    assert_eq!(rt; text.as_slice(), WRITTEN);
    Ok(())
}
