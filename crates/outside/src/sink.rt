ghost use Rattle.outside.specs.Sink.{AnswersPut, SinkState};

/// A sink took nothing of a piece.
#[derive(Clone, Copy, Debug, PartialEq, Eq)]
pub struct PutFailed;

/// What bytes are put into. It counts its faults.
pub trait Sink {
    ghost state: { Self → SinkState };

    /// Takes a front of the piece, and answers its length in bytes. Of a piece that isn't empty it
    /// takes at least one byte.
    ///
    /// `PutFailed` comes only where the piece isn't empty and the sink counts a fault. Nothing of the
    /// piece was taken then.
    fn put(&mut self, piece: &[u8]) -> Result<usize, PutFailed>
        ensures { AnswersPut (state self.old) (state self.new) piece.now result };
}
