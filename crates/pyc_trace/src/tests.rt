//! Runs over devices in memory. Expected lines are those of the model.

use py_base::{List, Text};
use py_devices::{CleanSink, MemSink, MemSource};
use py_trace::{Status, trace};
use std::alloc::{AllocError, Global};
use std::test::Fail;

/// The file of the code of the expression `lambda: x`, with the path `m.py`.
const FILE: &[u8; 230] = b"PYCODE\0\x01\
    \0\x01\0\0\0\0\0\0\0\0\0\0\0\0\0\0\0\x04m.py\0\0\0\x01\0\0\0\x08<module>\
    \0\0\0\x02\0\0\0\x04\x19\0\x19\x01?\0M\0\0\0\0\x04\0\0\0\x01\0\0\0\x09\0\0\0\x01\0\0\
    \0\x09\0\0\0\x01\0\0\0\x09\0\0\0\x01\0\0\0\x09\0\0\0\x02\x08\0!\0\0\0\0\0\0\0\0\0\0\
    \0\0\0\0\0\x04m.py\0\0\0\x01\0\0\0\x08<lambda>\0\0\0\x01\0\0\0\x02\x06\0M\0\0\0\0\
    \x02\0\0\0\x01\0\0\0\x09\0\0\0\x01\0\0\0\x09\0\0\0\x01\0\0\0\0\x01\0\0\0\x01x\0\0\0\
    \0\0\0\0\0\0\0\0\0\0\x03\0\0\0\x08<lambda>\0\0\0\0\0\0\0\0\0\0\0\0\0\0\0\0\0";

/// The offset of the first instruction in it. `Pop` has the number 32, and no instruction has 92.
const OPCODE: usize = 54;

const USAGE: &str = "usage: pyc_trace SCRIPT [PLACE..]\n";

/// How a run ends: its words with a bar between two of them, the number of the first instruction, the read and the write
/// that fail, counted from 1, the status, and what is written.
struct Ending {
    words: &'static str,
    opcode: u8,
    failing: (u32, u32),
    status: Status,
    out: &'static str,
    err: &'static str,
}

const ENDINGS: [Ending; 17] = [
    Ending {
        words: "g1",
        opcode: 25,
        failing: (0, 0),
        status: Status::Done,
        out: "op MakeFunction 0: child, '<lambda>'\nreturned #0.0\n",
        err: "",
    },
    Ending {
        words: "r",
        opcode: 25,
        failing: (0, 0),
        status: Status::Done,
        out: "op MakeFunction 0: child, '<lambda>'\nraised #0.0\n",
        err: "",
    },
    Ending {
        words: "",
        opcode: 25,
        failing: (0, 0),
        status: Status::Done,
        out: "op MakeFunction 0: child, '<lambda>'\nstopped\n",
        err: "",
    },
    Ending {
        words: "g1|0",
        opcode: 25,
        failing: (0, 0),
        status: Status::Done,
        out: "load 'x'\nreturned #0.0\n",
        err: "",
    },
    Ending {
        words: "r|000",
        opcode: 25,
        failing: (0, 0),
        status: Status::Done,
        out: "load 'x'\nraised #0.0\n",
        err: "",
    },
    Ending {
        words: "g0",
        opcode: 25,
        failing: (0, 0),
        status: Status::Usage,
        out: "",
        err: USAGE,
    },
    Ending {
        words: "g1|x",
        opcode: 25,
        failing: (0, 0),
        status: Status::Usage,
        out: "",
        err: USAGE,
    },
    Ending {
        words: "g1|",
        opcode: 25,
        failing: (0, 0),
        status: Status::Usage,
        out: "",
        err: USAGE,
    },
    Ending {
        words: "g1|0|4294967296",
        opcode: 25,
        failing: (0, 0),
        status: Status::Usage,
        out: "",
        err: USAGE,
    },
    Ending {
        words: "g1|1",
        opcode: 25,
        failing: (0, 0),
        status: Status::Input,
        out: "",
        err: "input: no code at this path\n",
    },
    Ending {
        words: "g1|4294967295",
        opcode: 25,
        failing: (0, 0),
        status: Status::Input,
        out: "",
        err: "input: no code at this path\n",
    },
    Ending {
        words: "g1|0|0",
        opcode: 25,
        failing: (0, 0),
        status: Status::Input,
        out: "",
        err: "input: no code at this path\n",
    },
    Ending {
        words: "g1",
        opcode: 32,
        failing: (0, 0),
        status: Status::Done,
        out: "wrong\n",
        err: "",
    },
    Ending {
        words: "g1|0",
        opcode: 32,
        failing: (0, 0),
        status: Status::Done,
        out: "load 'x'\nreturned #0.0\n",
        err: "",
    },
    Ending {
        words: "g1",
        opcode: 92,
        failing: (0, 0),
        status: Status::Input,
        out: "",
        err: "input: bad code file at 54\n",
    },
    Ending {
        words: "g1|0",
        opcode: 25,
        failing: (2, 0),
        status: Status::ReadFault,
        out: "",
        err: "",
    },
    Ending {
        words: "g1|0",
        opcode: 25,
        failing: (0, 2),
        status: Status::WriteFault,
        out: "load 'x'\nreturne",
        err: "",
    },
];

/// The words of this line, with a bar between two of them.
fn words_of(alloc: Global, line: &str) -> Result<List<Text>, AllocError> {
    let mut words = Vec::new(alloc);
    for word in line.split('|') {
        words.push(Text::from_string(String::from_str(alloc, word)?))?;
    }
    Ok(List::from_vec(words))
}

/// Files go in by pieces of 64 bytes, and lines out by pieces of 16.
#[test]
fn every_way_to_end(rt: HostRuntime) -> Result<(), Fail> {
    let alloc = rt.alloc();
    for end in &ENDINGS {
        let (read, write) = end.failing;
        let mut file = *FILE;
        file[OPCODE] = end.opcode;
        let bytes = List::from_vec(Vec::from_slice(alloc, file.as_slice())?);
        let mut source = MemSource::new(bytes, 64, List::from_vec(vec![in alloc; read]?));
        let room = List::from_vec(vec![in alloc; 0u8; 1024]?);
        let mut out = MemSink::new(room, 16, List::from_vec(vec![in alloc; write]?));
        let mut err = CleanSink::new(List::from_vec(vec![in alloc; 0u8; 1024]?));
        let words = words_of(alloc, end.words)?;
        let status = trace(alloc, &words, &mut source, &mut out, &mut err).status;
        assert_eq!(rt; status, end.status, "{}", end.words);
        assert_eq!(rt; out.bytes(), end.out.as_bytes(), "{}", end.words);
        assert_eq!(rt; err.bytes(), end.err.as_bytes(), "{}", end.words);
    }
    Ok(())
}
