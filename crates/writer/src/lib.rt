// The writer of a book: start, add and close.
#![tactic(auto)]

ghost use Rattle.fields.specs.Kind.{writer_kind};
ghost use Rattle.fields.specs.Unit.{unit_of};
ghost use Rattle.writer_calls.specs.History.{add, close, state, Answers, Starts};

use kinds::Kind;
use suites::refusal::Refusal;
use suites::suite::Suite;
use writer_state::Writer;

// A writer with the answer to its last call; with a refusal it is the writer that was given, or a closed writer of zeros at a start. The
// next call goes by the writer alone. The scope's form: methods with self by value that return the next writer with the answer.
#[derive(Clone, Copy)]
pub struct Written {
    pub answer: Result<(), Refusal>,
    pub writer: Writer,
}

impl Written {
    // The opening fields at the buffer's start, and a writer behind them. Refusals: 1, 2, 7.
    pub fn start(suite: Suite, key: &[u8], number: u64, buf: &mut [u8]) -> Written
        ensures { Starts suite key.now number buf.old
            result.answer (state result.writer buf.new) }
    {
        let answer = writer_state::tests::start_tests(suite, key.len(), buf.len());
        if answer.is_err() {
            return Written {
                answer,
                writer: writer_state::no_writer(),
            };
        }
        blockwise::copy(&format::layout::opening(suite, number), buf);
        Written {
            answer,
            writer: Writer {
                suite,
                key: blockwise::block_at(key, 0),
                number,
                place: 16,
                count: 0,
                total: 0,
                closed: false,
            },
        }
    }

    // A unit at the writer's place, and the writer behind it. Refusals: 9, 10, 11, 12, 13, 7.
    pub fn add(
        self,
        from: [u8; 2],
        to: [u8; 2],
        source: &[u8],
        target: &[u8],
        buf: &mut [u8],
    ) -> Written
        ensures { Answers writer_kind (add (unit_of from to source.now target.now))
            (state self.writer buf.old) result.answer (state result.writer buf.new) }
    {
        let w = self.writer;
        let kind = Kind::newest();
        let s = source.len();
        let t = target.len();
        let answer = writer_state::tests::add_tests(kind, w, from, to, s, t, buf.len());
        if answer.is_err() {
            return Written { answer, ..self };
        }
        let calls = frames::put_unit(kind, w, from, to, source, target, &mut buf[w.place..]);
        Written {
            answer,
            writer: Writer {
                place: w.place + kind.unit_room(s, t),
                count: w.count + 1,
                total: w.total + calls,
                ..w
            },
        }
    }

    // The close at the writer's place, and a closed writer behind it. Refusals: 9, 10, 7.
    pub fn close(self, buf: &mut [u8]) -> Written
        ensures { Answers writer_kind close
            (state self.writer buf.old) result.answer (state result.writer buf.new) }
    {
        let w = self.writer;
        let kind = Kind::newest();
        let answer = writer_state::tests::close_tests(kind, w, buf.len());
        if answer.is_err() {
            return Written { answer, ..self };
        }
        let calls = frames::put_close(kind, w, &mut buf[w.place..]);
        Written {
            answer,
            writer: Writer {
                place: w.place + kind.close_len(),
                total: w.total + calls,
                closed: true,
                ..w
            },
        }
    }
}
