//! The commands that are asked for, each with the lines before it.

/// a gives b an int, b gives c a text, and c tells a to go on; again and again.
pub const PROTOCOL: &[u8] =
    b"roles a b c ; rec X . a -> b : int . b -> c : text . c -> a { again : X , more : X }";

/// a gives b an int, b gives c one, and c tells a `ok` or `no`.
pub const VERDICT: &[u8] =
    b"roles a b c ; a -> b : int . b -> c : int . c -> a { ok : end , no : end }";

/// A command: its name, the lines of the script before it, and its own line.
#[derive(Clone, Copy)]
pub struct Row<'t>(pub &'t str, pub &'t [&'t str], pub &'t str);

const SEND: &str = "a send b 5";

const RECEIVE: &str = "b recv a x";

const SAY: &str = "b send c \"a text that is longer than what a value holds in place\"";

const HEAR: &str = "c recv b y";

const CHOOSE: &str = "c choose a again";

const PICK: &str = "a pick c";

const MARK: &str = "a mark m";

const BACK: &str = "a back m";

const COMMIT: &str = "b commit";

/// The lines after which c has heard the text.
pub const HEARD: &[&str] = &[SEND, RECEIVE, SAY, HEAR];

/// What a session is asked for.
pub const ROWS: &[Row<'static>] = &[
    Row("send", &[], SEND),
    Row("receive", &[SEND], RECEIVE),
    Row("send-text", &[SEND, RECEIVE], SAY),
    Row("receive-text", &[SEND, RECEIVE, SAY], HEAR),
    Row("choose", &[SEND, RECEIVE, SAY, HEAR], CHOOSE),
    Row("pick", &[SEND, RECEIVE, SAY, HEAR, CHOOSE], PICK),
    Row("mark", &[], MARK),
    Row("undo", &[SEND], "a undo 1"),
    Row("undo-of-a-receipt", &[SEND, RECEIVE, SAY, HEAR], "c undo 4"),
    Row(
        "rollback",
        &[SEND, RECEIVE, SAY, HEAR, CHOOSE, PICK],
        "a rollback 1",
    ),
    Row("back", &[MARK, SEND, RECEIVE, SAY, HEAR], BACK),
    Row("back-of-nothing", &[MARK], BACK),
    Row("commit", &[], COMMIT),
    Row("final-undo", &[COMMIT], "b undo 1"),
    Row("final-rollback", &[SEND, RECEIVE, COMMIT], "a rollback 1"),
    Row("final-back", &[MARK, SEND, RECEIVE, COMMIT], BACK),
    Row("refused-act", &[], "a recv b x"),
    Row("refused-undo", &[], "a undo 9"),
    Row("needed-undo", &[SEND, RECEIVE], "a undo 1"),
    Row("strange-undo", &[SEND], "b undo 1"),
    Row("refused-rollback", &[SEND], "a rollback 9"),
    Row("refused-back", &[SEND], BACK),
];

/// What a room is asked for besides.
pub const ROOM_ROWS: &[Row<'static>] = &[
    Row("news", &[SEND, RECEIVE, SAY, "a rollback 1"], "b news 0"),
    Row("show", &[SEND, RECEIVE, SAY, HEAR], "a show"),
];
