use super::{END, FAR_WALL, ONE_FRAME, WALL, config, refused, run_on, scan};
use crate::status::Status;
use scan_lang::BadWhat;
use std::test::Fail;

#[test]
fn scans_that_are_cut_off_end_there(rt: HostRuntime) -> Result<(), Fail> {
    let alloc = rt.alloc();
    let two = "frame 1 blocks 2 resident 2\nsum blocks 2 known 576 weight 576 distance -192\n";
    for cut in 0..286_usize {
        let mut text = scan(config(alloc, "", "")?, &[WALL], "sum\nend\n")?;
        text.truncate(cut);
        let (status, sink) = run_on(&rt, alloc, text, 1, Vec::new(alloc), Vec::new(alloc))?;
        let wanted = match cut {
            0..=277 => "",
            278..=281 => ONE_FRAME,
            _ => two,
        };
        assert_eq!(rt; status, refused(cut as u64, BadWhat::Short));
        assert_eq!(rt; sink.bytes(), wanted.as_bytes());
    }
    Ok(())
}

#[test]
fn scans_have_at_most_a_million_lines(rt: HostRuntime) -> Result<(), Fail> {
    let alloc = rt.alloc();
    for (empty, end, written) in [
        (999_998, Status::Done, END),
        (999_999, refused(1_000_232, BadWhat::Lines), ""),
    ] {
        let mut text = config(alloc, "", "")?;
        for _ in 0..empty {
            text.push(b'\n')?;
        }
        text.extend_from_slice(END.as_bytes())?;
        let (status, sink) = run_on(&rt, alloc, text, 4096, Vec::new(alloc), Vec::new(alloc))?;
        assert_eq!(rt; status, end);
        assert_eq!(rt; sink.bytes(), written.as_bytes());
    }
    Ok(())
}

#[test]
fn a_fault_leaves_whole_replies(rt: HostRuntime) -> Result<(), Fail> {
    let alloc = rt.alloc();
    let shots = [WALL, FAR_WALL, WALL];
    for (name, heap, piece, read_fail, write_fail, end, wanted) in [
        // The first piece of 300 bytes ends in the middle of the second frame.
        (
            "a read of the second frame",
            "\"heap_blocks\":64",
            300,
            1,
            99,
            Status::ReadFault,
            ONE_FRAME,
        ),
        (
            "a write of the second reply",
            "\"heap_blocks\":2",
            4096,
            99,
            1,
            Status::WriteFault,
            ONE_FRAME,
        ),
        // By pieces of one byte a call has the number of its byte: the first frame is the bytes 233 to 277.
        (
            "a read of the configuration",
            "\"heap_blocks\":64",
            1,
            7,
            99,
            Status::ReadFault,
            "",
        ),
        (
            "a read of the frame's line",
            "\"heap_blocks\":64",
            1,
            240,
            99,
            Status::ReadFault,
            "",
        ),
        (
            "a read of the depth map's header",
            "\"heap_blocks\":64",
            1,
            266,
            99,
            Status::ReadFault,
            "",
        ),
        (
            "a read of its first sample byte",
            "\"heap_blocks\":64",
            1,
            276,
            99,
            Status::ReadFault,
            "",
        ),
        (
            "a read of its last byte",
            "\"heap_blocks\":64",
            1,
            277,
            99,
            Status::ReadFault,
            "",
        ),
        (
            "a read after it",
            "\"heap_blocks\":64",
            1,
            278,
            99,
            Status::ReadFault,
            ONE_FRAME,
        ),
    ] {
        let text = scan(
            config(alloc, "\"heap_blocks\":64", heap)?,
            &shots,
            "sum\nend\n",
        )?;
        let (status, sink) = run_on(
            &rt,
            alloc,
            text,
            piece,
            vec![in alloc; read_fail]?,
            vec![in alloc; write_fail]?,
        )?;
        assert_eq!(rt; status, end, "{name}");
        assert_eq!(rt; sink.bytes(), wanted.as_bytes(), "{name}");
    }
    Ok(())
}
