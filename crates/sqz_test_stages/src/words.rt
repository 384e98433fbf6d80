//! Values of words, and chunks, whose numbers are known from elsewhere.

use sqz_object::{Chunk, Kind, Value, chunk_at, value_of};

#[test]
fn values(rt: HostRuntime) {
    for (word, value) in [
        (0x7FFF_FFFF, Value::Int(1_073_741_823)),
        (0xFFFF_FFFF, Value::Int(-1)),
        (0x8000_0001, Value::Int(-1_073_741_824)),
        (1, Value::Int(0)),
        (0x1002, Value::Odd(0x1002)),
        (0x1000, Value::Pointer(0x1000)),
    ] {
        assert_eq!(rt; value_of(word), value);
    }
}

#[test]
fn chunks_of_each_kind(rt: HostRuntime) {
    let some: [(&[u32], Chunk); 4] = [
        (&[0x320F, 1, 1], chunk(Kind::Short, 0, 3, 0x320F)),
        (&[0xE, 1, 1], chunk(Kind::Free, 0, 3, 0xE)),
        (&[0x1011, 0x109, 1], chunk(Kind::Two, 1, 3, 0x109)),
        (&[8, 0x1000, 0x2FC, 1], chunk(Kind::Three, 2, 4, 0x2FC)),
    ];
    for (words, chunk) in some {
        assert!(rt; !words.is_empty());
        assert_eq!(rt; chunk_at(words, 0), Ok(chunk));
    }
}

/// A chunk.
fn chunk(kind: Kind, before: u32, length: u32, base: u32) -> Chunk {
    Chunk {
        kind,
        before,
        length,
        base,
    }
}
