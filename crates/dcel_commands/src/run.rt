//! The runner, which answers all lines of a source.

ghost use Rattle.std.specs.Prelude.{◌≡◌, ◌≤◌, ◌^◌, true, false, OnOk};
ghost use Rattle.dcel_commands.specs.Run.{AnswersAll, AnswersWholeLines, AnswersInPart};

use crate::faults::RunFault;
use crate::session::Session;
use dcel_text::output::Writer;
use dcel_text::sink::LineSink;
use dcel_text::source::LineSource;
use std::alloc::Allocator;

/// The number of bytes that are read at once.
const PIECE: usize = 16384;

/// Reads lines to the end of the source, and writes the reply to each.
///
/// It starts with an empty mesh. A line is a command, a query or a bad line. A line that is refused
/// changes nothing, and the run continues.
///
/// Asks that neither the source nor the sink has failed, and for a `limit` of at most 2^31: a
/// command that would create more vertices, edges or faces than that is refused.
///
/// After `Ok` all bytes were read and the sink took all replies. If a writer below the sink buffers
/// bytes, such as a `BufWriter`, the caller still has to flush it. Returns [`RunFault::Memory`] if
/// there is no memory for the first mesh, before anything is read; [`RunFault::Read`] if the source
/// failed: then each line that was read whole is answered; [`RunFault::Write`] if the sink failed:
/// then the sink has a beginning of the replies.
pub fn run<A: Allocator + Clone, S: LineSource, K: LineSink>(
    alloc: A,
    source: &mut S,
    sink: &mut K,
    limit: usize,
) -> Result<(), RunFault>
    requires source_calm { S.has_failed source.old ≡ false }
    requires sink_calm { K.has_failed sink.old ≡ false }
    requires limit_in_range { limit ≤ 2 ^ 31 }

    ensures ok { OnOk result
        (AnswersAll limit (S.remaining source.old) (S.remaining source.new) (K.contents sink.old) (K.contents sink.new)) }
    ensures calm { OnOk result ((S.has_failed source.new ≡ false) × (K.has_failed sink.new ≡ false)) }

    ensures read { result ≡ Err RunFault.Read →
        AnswersWholeLines limit (S.remaining source.old) (S.remaining source.new) (K.contents sink.old) (K.contents sink.new) }
    ensures read_failed { result ≡ Err RunFault.Read → (S.has_failed source.new ≡ true) × (K.has_failed sink.new ≡ false) }

    ensures write { result ≡ Err RunFault.Write →
        AnswersInPart limit (S.remaining source.old) (S.remaining source.new) (K.contents sink.old) (K.contents sink.new) }
    ensures write_failed { result ≡ Err RunFault.Write → (S.has_failed source.new ≡ false) × (K.has_failed sink.new ≡ true) }

    // There was no memory for the first mesh, and nothing was read or written.
    ensures memory { result ≡ Err RunFault.Memory → (source.new ≡ source.old) × (sink.new ≡ sink.old) }
{
    let mut session = match Session::new(alloc) {
        Err(_) => return Err(RunFault::Memory),
        Ok(session) => session,
    };
    let mut out = Writer::new(sink);
    let mut piece = [0u8; PIECE];
    loop {
        let n = match source.fill(&mut piece) {
            Err(_) => return Err(RunFault::Read),
            Ok(n) => n,
        };
        if n == 0 {
            session.finish(&mut out, limit);
            out.flush();
            if out.failed() {
                return Err(RunFault::Write);
            }
            return Ok(());
        }
        session.feed(&mut out, limit, &piece[..n]);
        out.flush();
        if out.failed() {
            return Err(RunFault::Write);
        }
    }
}
