ghost use Rattle.std.specs.Prelude.{ℕ, List};
ghost use Rattle.sve_script.specs.OneReading.{IsOfOneSession, IsSessionAlone, IsMisshapenOnce, IsBeyondOneLimit, IsReadSomehow};

/// The law of sessions: any bytes are exactly one of a session, JSON that is not as a session at one path, a session beyond
/// one limit, and no JSON, and they are no two sessions. It does nothing.
pub fn bytes_have_one_reading()
    ensures one_session { (bytes : List ℕ) → IsOfOneSession bytes }
    ensures session_alone { (bytes : List ℕ) → IsSessionAlone bytes }
    ensures one_path { (bytes : List ℕ) → IsMisshapenOnce bytes }
    ensures one_limit { (bytes : List ℕ) → IsBeyondOneLimit bytes }
    ensures none_left_out { (bytes : List ℕ) → IsReadSomehow bytes }
{}
