//! Laws of frames and sessions that no single call shows.

ghost use Rattle.std.specs.Prelude.{◌≡◌, ◌≤◌, ◌+◌, ◌↔◌, ◌++◌, ◌∷◌, [], List, ℕ, Some, length};
ghost use Rattle.thunk_codec.specs.declared.job.Job.{Job};
ghost use Rattle.thunk_codec.specs.Job.{job_encoding, max_job};
ghost use Rattle.job_wire.specs.declared.message.Message.{Message};
ghost use Rattle.job_wire.specs.Frame.{IsBytes, IsJob, IsMessage, Frame, contents, frame, max_contents};
ghost use Rattle.job_wire.specs.Reading.{job_of, message_of};
ghost use Rattle.job_wire.specs.Session.{TooLong, Bad, Whole, front, session_by, session_from, session};
ghost use Rattle.job_wire.specs.Cut.{Cutting, IsCut, first_before};

/// Reading a job is the inverse of its encoding.
pub fn jobs_read_back()
    ensures { (bytes : List ℕ) (job : Job) → IsBytes bytes → length bytes ≤ max_job → (job_of bytes ≡ Some job) ↔ ((bytes ≡ job_encoding job) × IsJob job) }
{}

/// Reading contents is the inverse of writing them.
pub fn messages_read_back()
    ensures { (bytes : List ℕ) (message : Message) → IsBytes bytes → length bytes ≤ max_contents → (message_of bytes ≡ Some message) ↔ ((bytes ≡ contents message) × IsMessage message) }
{}

/// The frame of a message at the front of bytes is what stands there, and no other message does.
pub fn frames_read_back()
    ensures { (bytes : List ℕ) (message : Message) (rest : List ℕ) → IsBytes bytes → (front bytes ≡ Whole message rest) ↔ ((bytes ≡ frame message ++ rest) × IsMessage message) }
{}

/// A frame is that of one message, and no proper prefix of it is a frame.
pub fn one_frame()
    ensures { (bytes : List ℕ) (rest : List ℕ) (m : Message) (n : Message) → Frame bytes m → Frame (bytes ++ rest) n → (m ≡ n) × (rest ≡ []) }
{}

/// Whatever bytes come after them, a bad frame stays bad, and a length over the limit stays so.
pub fn refusals_stay()
    ensures bad { (bytes : List ℕ) (rest : List ℕ) → front bytes ≡ Bad → front (bytes ++ rest) ≡ Bad }
    ensures too_long { (bytes : List ℕ) (rest : List ℕ) (len : ℕ) → front bytes ≡ TooLong len → front (bytes ++ rest) ≡ TooLong len }
{}

/// A session by what stands at the front of its bytes, without a bound.
pub fn sessions_by_fronts()
    ensures { (at : ℕ) (bytes : List ℕ) → session_from at bytes ≡ session_by session_from at bytes (front bytes) }
{}

/// In whatever pieces bytes are fed, what was cut away so far and what is kept are the session.
pub fn cut_in_any_pieces()
    ensures started { IsCut [] [] (record { at = 0; kept = [] }) }
    ensures fed { (fed : List ℕ) (given : List Message) (c : Cutting) (piece : List ℕ) → IsCut fed given c → IsCut (fed ++ piece) given (record { at = c.at; kept = c.kept ++ piece }) }
    ensures taken { (fed : List ℕ) (given : List Message) (c : Cutting) (message : Message) (rest : List ℕ) → IsCut fed given c → IsMessage message → c.kept ≡ frame message ++ rest
        → IsCut fed (given ++ message ∷ []) (record { at = c.at + length (frame message); kept = rest }) }
    ensures session { (fed : List ℕ) (given : List Message) (c : Cutting) → IsCut fed given c → session fed ≡ first_before given (session_from c.at c.kept) }
{}
