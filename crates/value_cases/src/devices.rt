// What no clause says: that calls succeed where there is memory, and what the system answers.
use int_core::{Bytes, Numbers};
use io_edge::{
    Failed, FileFault, Files, HostFiles, HostSink, HostSource, LineFault, LineReader, MemFiles,
    MemSink, MemSource, OutputStream, Sink, Source, write_all,
};
use std::alloc::Global;
use std::test::Fail;
use std::{env, fs, process};

fn numbers(alloc: Global, numbers: &[u64]) -> Result<Numbers, Fail> {
    Ok(Numbers::of(Vec::from_slice(alloc, numbers)?))
}

#[test]
fn a_source_in_memory_fails_at_the_listed_calls(rt: HostRuntime) -> Result<(), Fail> {
    let bytes = Bytes::of(Vec::from_slice(rt.alloc(), b"abcde")?);
    let mut source = MemSource::new(bytes, numbers(rt.alloc(), &[1, 4])?);
    let answers: [Result<&[u8], Failed>; 6] = [
        Ok(b"ab"),
        Err(Failed),
        Ok(b"cd"),
        Ok(b"e"),
        Err(Failed),
        Ok(b""),
    ];
    for (call, wanted) in answers.iter().enumerate() {
        let mut buf = [0; 2];
        let answer = source.read(&mut buf);
        let answer = answer.map(|count| &buf[..count]);
        assert_eq!(rt; answer, *wanted, "call {call}");
    }
    assert_eq!(rt; source.calls(), 6);
    assert!(rt; source.left().is_empty());
    Ok(())
}

#[test]
fn a_sink_in_memory_fails_at_the_listed_calls(rt: HostRuntime) -> Result<(), Fail> {
    let mut sink = MemSink::new(rt.alloc(), numbers(rt.alloc(), &[1])?);
    let answers: [(&[u8], Result<(), Failed>); 4] = [
        (b"one", Ok(())),
        (b"two", Err(Failed)),
        (b"", Ok(())),
        (b"three", Ok(())),
    ];
    for (bytes, wanted) in answers {
        assert_eq!(rt; write_all(&mut sink, bytes), wanted);
    }
    assert_eq!(rt; sink.written(), b"onethree".as_slice());
    assert_eq!(rt; sink.calls(), 3);
    Ok(())
}

#[test]
fn files_in_memory_fail_at_the_listed_calls(rt: HostRuntime) -> Result<(), Fail> {
    let alloc = rt.alloc();
    let mut files = MemFiles::new(alloc, numbers(alloc, &[2, 5])?);
    assert_eq!(rt; files.put("a", b"old"), Ok(()));
    assert_eq!(rt; files.put("b", b""), Ok(()));
    assert_eq!(rt; files.put("a", b"lost"), Err(Failed));
    assert_eq!(rt; files.put("a", b"new"), Ok(()));
    let answers: [(&str, Result<&[u8], FileFault>); 4] = [
        ("a", Ok(b"new")),
        ("a", Err(FileFault::Failed)),
        ("c", Err(FileFault::Absent)),
        ("b", Ok(b"")),
    ];
    for (name, wanted) in answers {
        let answer = files.get(alloc, name);
        assert_eq!(rt;
            answer
                .as_ref()
                .map(|file| file.as_slice())
                .map_err(|fault| *fault),
            wanted,
            "{name}"
        );
    }
    assert_eq!(rt; files.calls(), 8);
    assert_eq!(rt; files.file("a"), Some(b"new".as_slice()));
    assert_eq!(rt; files.file("c"), None);
    Ok(())
}

/// Adds the lines of a source, each with a bar behind it, and answers the fault that ended the reading, if one did.
fn add_lines(
    lines: &mut Vec<u8>,
    reader: &mut LineReader,
    source: &mut MemSource,
) -> Result<Option<LineFault>, Fail> {
    for _ in 0..4 {
        match reader.next_line(source) {
            Ok(Some(line)) => {
                lines.extend_from_slice(line.as_slice())?;
                lines.push(b'|')?;
            }
            Ok(None) => return Ok(None),
            Err(fault) => return Ok(Some(fault)),
        }
    }
    Err(Fail::new("the input has too many lines"))
}

/// Adds the lines of an input of which these calls fail.
fn read_lines(
    alloc: Global,
    lines: &mut Vec<u8>,
    input: &[u8],
    failing: &[u64],
) -> Result<Option<LineFault>, Fail> {
    let bytes = Bytes::of(Vec::from_slice(alloc, input)?);
    let mut source = MemSource::new(bytes, numbers(alloc, failing)?);
    let mut reader = LineReader::new(alloc)?;
    add_lines(lines, &mut reader, &mut source)
}

#[test]
fn lines_end_before_line_feeds_and_at_the_end(rt: HostRuntime) -> Result<(), Fail> {
    let inputs: [(&[u8], &[u64], &[u8], Option<LineFault>); 4] = [
        (b"", &[], b"", None),
        (b"ab\n\nz", &[], b"ab||z|", None),
        (b"\r\n", &[], b"\r|", None),
        (b"a\nb", &[1], b"a|", Some(LineFault::Failed)),
    ];
    for (input, failing, wanted, fault) in inputs {
        let mut lines = Vec::new(rt.alloc());
        assert_eq!(rt; read_lines(rt.alloc(), &mut lines, input, failing)?, fault);
        assert_eq!(rt; lines.as_slice(), wanted);
    }
    Ok(())
}

#[test]
fn lines_have_a_greatest_length(rt: HostRuntime) -> Result<(), Fail> {
    for (length, fault) in [(1_048_576, None), (1_048_577, Some(LineFault::Limit))] {
        let input = vec![in rt.alloc(); b'x'; length]?;
        let mut lines = Vec::new(rt.alloc());
        assert_eq!(rt;
            read_lines(rt.alloc(), &mut lines, input.as_slice(), &[])?,
            fault
        );
    }
    Ok(())
}

#[test]
fn a_file_that_was_put_is_read_back(rt: HostRuntime) -> Result<(), Fail> {
    let alloc = rt.alloc();
    let folder = env::temp_dir(&rt)?;
    let name = format!(in alloc; "{}/devices-{}", folder.as_str(), process::id(rt.process()))?;
    let mut files = HostFiles::new(rt);
    assert_eq!(rt;
        files.get(alloc, name.as_str()).err(),
        Some(FileFault::Absent)
    );
    for bytes in [b"longer\0".as_slice(), b"short".as_slice(), b"".as_slice()] {
        assert_eq!(rt; files.put(name.as_str(), bytes), Ok(()));
        let file = files.get(alloc, name.as_str());
        assert!(rt; file.is_ok_and(|file| file.as_slice() == bytes));
    }
    fs::remove_file(&rt, name.as_str())?;
    assert_eq!(rt;
        files.get(alloc, name.as_str()).err(),
        Some(FileFault::Absent)
    );

    // A folder in the place of a file is not an absent file.
    assert_eq!(rt;
        files.get(alloc, folder.as_str()).err(),
        Some(FileFault::Failed)
    );
    assert_eq!(rt; files.put(folder.as_str(), b"x"), Err(Failed));
    Ok(())
}

#[test]
fn the_standard_streams_take_and_give(rt: HostRuntime) -> Result<(), Fail> {
    for stream in [OutputStream::Output, OutputStream::Error] {
        let mut sink = HostSink::new(rt, stream);
        assert_eq!(rt; sink.write(b""), Ok(0));
        assert_eq!(rt; write_all(&mut sink, b"written\n"), Ok(()));
    }
    assert_eq!(rt; HostSource::new(rt).read(&mut []), Ok(0));
    Ok(())
}
