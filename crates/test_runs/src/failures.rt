//! A sink that takes little by each call, and fails.

ghost use Rattle.std.specs.Prelude.{Some};

use crate::run::run;
use std::test::Fail;
use test_volumes::texts::{sink, source};
use test_volumes::volumes::fresh;
use zd_base::Status;
use zd_disk::Failed;
use zd_ports::{MemSink, Sink};

/// A sink that takes at most three bytes a call.
#[derive(Drop)]
struct Narrow {
    inner: MemSink,
}

impl Sink for Narrow {
    ghost held = { λ s. Some s.inner.held };

    ghost faults = { λ s. s.inner.faults };

    fn write(&mut self, piece: &[u8]) -> Result<usize, Failed> {
        let most = piece.len().min(3);
        self.inner.write(&piece[..most])
    }
}

#[test]
fn a_sink_that_fails_in_the_middle_has_a_front_of_the_output(rt: HostRuntime) -> Result<(), Fail> {
    let output = b"0 1 0 r 0 1 data z8 @0\nend 0 ok\n".as_slice();
    for (fails, status, length) in [(5, 6, 12), (12, 0, 32)] {
        let mut source = source(rt.alloc(), "r 0 0 1;", 1, &[])?;
        let mut sink = Narrow {
            inner: sink(rt.alloc(), &[fails])?,
        };
        let (ended, _) = run(
            rt.alloc(),
            &["img", "s"],
            fresh(rt.alloc())?,
            &mut source,
            &mut sink,
        )?;
        assert_eq!(rt; ended, Status(status));
        assert_eq!(rt; Some(sink.inner.held()), output.get(..length));
    }
    Ok(())
}
