//! The refusals of a text, in words.

/// Why a line is refused with this number.
pub fn reason_of(number: u32) -> &'static str {
    match number {
        11 => "a line of more than 8,192 bytes",
        12 => "a line that is no UTF-8",
        13 => "a quote that is left open",
        14 => "a word that is missing",
        15 => "a word that is no number in its limits",
        16 => "an id of more than 200 bytes",
        21 => "a chart that was not defined",
        22 => "a dimension that was not defined",
        23 => "no block is open",
        24 => "a block is open",
        25 => "the chart has a row in this beat",
        26 => "a moment that is no multiple of the update_every of a chart with a row",
        27 =>
            "a moment that is not above the last one, which standard output has behind the number",
        28 => "the text ends behind it inside a beat, a block or a line",
        29 => "the database has copies of a child, and collects none",
        31 => "the chart has another update_every",
        32 => "too many charts",
        33 => "too many dimensions",
        41 => "a line that cannot be read",
        42 => "an alarm that has no name",
        43 => "an alarm that has no chart: a line on",
        44 => "a duration that is none, is missing or is out of its limits",
        45 => "too many alarms",
        46 => "a text of more than 1,048,576 bytes",
        _ => "as the table of refusals says",
    }
}

/// Why what a child sent is refused with this number.
pub fn copy_reason_of(number: u32) -> &'static str {
    match number {
        29 => "the database has beats of its own, and takes no copies",
        _ => reason_of(number),
    }
}

/// Why the exchange with another agent is refused with this kind.
pub fn peer_reason_of(kind: u32) -> &'static str {
    match kind {
        1 => "the parent's database has copies of another child",
        2 => "a frame was out of place or in no form",
        3 => "a frame of more than 16,777,216 bytes was announced",
        _ => "as the table of kinds says",
    }
}
