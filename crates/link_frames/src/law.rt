ghost use Rattle.std.specs.Prelude.{◌≡◌, ℕ, ◌+◌, ◌<◌, ◌≤◌, ◌^◌, List, [], ◌++◌, length, Some};
ghost use Rattle.std.specs.List.{concat};
ghost use Rattle.history.specs.declared.limits.TheConstants.{MOST_CHARTS, MOST_DIMENSIONS};
ghost use Rattle.replication.specs.declared.ask.Ask.{Ask as AnAsk};
ghost use Rattle.replication.specs.declared.beats.Beat.{Beat};
ghost use Rattle.replication.specs.declared.message.Data.{Data};
ghost use Rattle.replication.specs.declared.names.Names.{Names};
ghost use Rattle.replication.specs.Answer.{data_of};
ghost use Rattle.link_frames.specs.declared.frame.Frame.{Frame};
ghost use Rattle.link_frames.specs.declared.frame.Frame.TheVariants as frame;
ghost use Rattle.link_frames.specs.Children.{KeepsRules};
ghost use Rattle.link_frames.specs.DataForm.{IsData};
ghost use Rattle.link_frames.specs.Frames.{body_bytes, body_limit, frame_bytes, HasSpelling};
ghost use Rattle.link_frames.specs.Stream.{Feeds, HandsOut, HasNoFrame, IsBad, IsOpen, IsTooLong};

/// The laws of spellings: no two frames share one, and none is the prefix of another. It does nothing.
pub fn frames_are_prefix_free()
    ensures one_frame { (a b : Frame) → HasSpelling a → HasSpelling b
        → frame_bytes a ≡ frame_bytes b → a ≡ b }
    ensures no_prefix { (a b : Frame) (more : List ℕ) → HasSpelling a → HasSpelling b
        → frame_bytes a ++ more ≡ frame_bytes b → more ≡ [] }
{}

/// The laws of bytes that are cut in two at any place. It does nothing.
pub fn cut_changes_no_frames()
    // What is handed out of two pieces, one after the other, is what is handed out of both together.
    ensures onward { (bytes more rest end : List ℕ) (first second third : List Frame)
        → HandsOut bytes first second rest → HandsOut (rest ++ more) second third end
        → HandsOut (bytes ++ more) first third end }

    // Bytes have one list of frames that goes to where no frame stands.
    ensures one_list { (bytes rest end : List ℕ) (before first second : List Frame)
        → HandsOut bytes before first rest → HasNoFrame rest
        → HandsOut bytes before second end → HasNoFrame end → first ≡ second }
    ensures one_rest { (bytes rest end : List ℕ) (before first second : List Frame)
        → HandsOut bytes before first rest → HasNoFrame rest
        → HandsOut bytes before second end → HasNoFrame end → rest ≡ end }

    // No frame stands where one is under way, and where a length or a body is refused.
    ensures open { (bytes : List ℕ) → IsOpen bytes → HasNoFrame bytes }
    ensures long { (bytes : List ℕ) → IsTooLong bytes → HasNoFrame bytes }
    ensures bad { (bytes : List ℕ) → IsBad bytes → HasNoFrame bytes }

    // Only one of these is so.
    ensures open_or_long { (bytes : List ℕ) → IsOpen bytes → IsTooLong bytes → ⊥ }
    ensures open_or_bad { (bytes : List ℕ) → IsOpen bytes → IsBad bytes → ⊥ }
    ensures long_or_bad { (bytes : List ℕ) → IsTooLong bytes → IsBad bytes → ⊥ }

    // A refused length or body stays one, however the bytes go on.
    ensures long_stays { (bytes more : List ℕ) → IsTooLong bytes → IsTooLong (bytes ++ more) }
    ensures bad_stays { (bytes more : List ℕ) → IsBad bytes → IsBad (bytes ++ more) }

    // A frame that is under way is shorter than the longest one.
    ensures held { (bytes : List ℕ) → IsOpen bytes → length bytes < body_limit + 4 }
{}

/// The laws of bytes that are cut into pieces at any places, each piece answered with `Ok`. It does nothing.
pub fn pieces_change_no_frames()
    // What a new reader hands out of pieces, one after the other, is what is handed out of all bytes together.
    ensures together { (pieces : List (List ℕ)) (before now : List Frame) (rest : List ℕ)
        → Feeds [] pieces before now rest → HandsOut (concat pieces) before now rest }
    ensures under_way { (pieces : List (List ℕ)) (before now : List Frame) (rest : List ℕ)
        → Feeds [] pieces before now rest → IsOpen rest }

    // However the same bytes are cut, the same frames are handed out, and the same bytes are held.
    ensures one_list { (pieces others : List (List ℕ)) (before first second : List Frame)
        (rest end : List ℕ) → Feeds [] pieces before first rest → Feeds [] others before second end
        → concat pieces ≡ concat others → first ≡ second }
    ensures one_rest { (pieces others : List (List ℕ)) (before first second : List Frame)
        (rest end : List ℕ) → Feeds [] pieces before first rest → Feeds [] others before second end
        → concat pieces ≡ concat others → rest ≡ end }
{}

/// The law of answers: what a child answers whose names and beats keep the rules is a frame. It does nothing.
pub fn answers_are_frames()
    ensures { (child floor : ℕ) (names : Names) (beats : List Beat) (ask : AnAsk) (message : Data)
        → child < 2 ^ 64 → floor < 2 ^ 32 → ask.last < 2 ^ 32 → KeepsRules names beats
        → data_of child floor names beats ask ≡ Some message → HasSpelling (frame.Data message) }
{}

/// The law of the length of a Data in form that has one beat, at most `MOST_CHARTS` charts and at most
/// `MOST_DIMENSIONS` dimensions: its body has at most `BODY_LIMIT` bytes. It does nothing.
pub fn one_beat_fits_a_frame()
    ensures { (message : Data) → IsData message → length message.beats ≡ 1
        → length message.names.charts ≤ MOST_CHARTS
        → length message.names.dimensions ≤ MOST_DIMENSIONS
        → length (body_bytes (frame.Data message)) ≤ body_limit }
{}
