//! The commands of the script but the last, and what each tells. What is wanted was worked out by a plain model of the
//! definitions: all beats, of which each answer filters those that it needs.

use crate::runs::{RUN, Step};
use host_model::Status;
use std::test::Fail;

const HEALTH: &[&str] = &["health"];

const LOG: &[&str] = &["log", "text"];

/// The command with this number, from 0 on.
pub fn command(number: usize) -> Result<&'static Step, Fail> {
    let found = match number {
        0..20 => FIRST.get(number),
        20..40 => SECOND.get(number.saturating_sub(20)),
        _ => THIRD.get(number.saturating_sub(40)),
    };
    match found {
        Some(step) => Ok(step),
        None => Err(Fail::new("no such command")),
    }
}

/// The first twenty.
static FIRST: [Step; 20] = [
    (
        &["new", "7", "9", "1", "12", "1", "3", "1"],
        "",
        "",
        Status::Ok,
    ),
    (&["new", "7"], "", "", Status::Exists),
    (RUN, "", "", Status::Ok),
    (
        &["query", "t.c", "0", "60", "60", "sum"],
        "",
        "ERROR 3\n",
        Status::Ok,
    ),
    (
        HEALTH,
        "alarm: high\non: t.c\ncalc: $a\nevery: 1s\nwarn: $this > 50\n\
    delay: up 10s down 60s\nalarm: mean\non: t.c\nlookup: average -20s of a\nevery: 1s\n\
    warn: $this > 40\nalarm: slow\non: t.d\ncalc: $c\nevery: 1m\ncrit: $this > 900\n",
        "STORED 1\n",
        Status::Ok,
    ),
    (LOG, "", "DROPPED 0\n", Status::Ok),
    (
        RUN,
        "CHART t.c n t u\nDIMENSION a\nDIMENSION b\nCHART t.d n t u\nDIMENSION c\nBEGIN t.c\n\
    SET a = 10\nSET b = 20\nEND\nBEGIN t.d\nSET c = 30\nEND\nMOMENT 3410\n",
        "STORED 2\nEVENT 1 3410 t.c high UNINITIALIZED CLEAR 10 -\n\
    EVENT 2 3410 t.c mean UNINITIALIZED CLEAR 10 -\n\
    EVENT 3 3410 t.d slow UNINITIALIZED CLEAR 30 -\n",
        Status::Ok,
    ),
    (
        RUN,
        "BEGIN t.c\nSET a = 60 A\nSET b = -5\nEND\nMOMENT 3415\n",
        "STORED 3\nEVENT 4 3415 t.c high CLEAR WARNING 60 3425\n",
        Status::Ok,
    ),
    (
        &["query", "t.c", "3400", "3420", "5", "sum"],
        "",
        "ROWS 4 a b\n3400 null null\n3405 null null\n3410 10 20\n3415 60 -5\n",
        Status::Ok,
    ),
    (
        &["query", "t.c", "3410", "3416", "1", "max", "a"],
        "",
        "ROWS 6 a\n3410 10\n3411 null\n3412 null\n3413 null\n3414 null\n3415 60\n",
        Status::Ok,
    ),
    (
        RUN,
        "BEGIN t.c\nSET a = 1\n",
        "REFUSED 2 28\n",
        Status::Refused(2, 28),
    ),
    (
        RUN,
        "BEGIN t.c\nSET a = 1\nEND\nMOMENT 3415\n",
        "REFUSED 4 27 3415\n",
        Status::Refused(4, 27),
    ),
    (
        RUN,
        "BEGIN t.c\nSET a = 30\nSET b = 7\nEND\nBEGIN t.d\nSET c = 31\nEND\nMOMENT 3425\n",
        "STORED 4\nEVENT 5 3425 t.c high WARNING CLEAR 30 3485\n",
        Status::Ok,
    ),
    (
        LOG,
        "",
        "DROPPED 0\nEVENT 1 3410 t.c high UNINITIALIZED CLEAR 10 -\n\
    EVENT 2 3410 t.c mean UNINITIALIZED CLEAR 10 -\n\
    EVENT 3 3410 t.d slow UNINITIALIZED CLEAR 30 -\n\
    EVENT 4 3415 t.c high CLEAR WARNING 60 3425\n\
    EVENT 5 3425 t.c high WARNING CLEAR 30 3485\n",
        Status::Ok,
    ),
    (
        &["log", "json"],
        "",
        "{\"dropped\":0,\"events\":[{\"alarm\":\"high\",\"chart\":\"t.c\",\"due\":null,\"id\":1,\
    \"moment\":3410,\"new\":\"CLEAR\",\"old\":\"UNINITIALIZED\",\"value\":\"10\"},\
    {\"alarm\":\"mean\",\"chart\":\"t.c\",\"due\":null,\"id\":2,\"moment\":3410,\"new\":\"CLEAR\",\
    \"old\":\"UNINITIALIZED\",\"value\":\"10\"},{\"alarm\":\"slow\",\"chart\":\"t.d\",\"due\":null,\
    \"id\":3,\"moment\":3410,\"new\":\"CLEAR\",\"old\":\"UNINITIALIZED\",\"value\":\"30\"},\
    {\"alarm\":\"high\",\"chart\":\"t.c\",\"due\":3425,\"id\":4,\"moment\":3415,\"new\":\"WARNING\",\
    \"old\":\"CLEAR\",\"value\":\"60\"},{\"alarm\":\"high\",\"chart\":\"t.c\",\"due\":3485,\"id\":5,\
    \"moment\":3425,\"new\":\"CLEAR\",\"old\":\"WARNING\",\"value\":\"30\"}]}\n",
        Status::Ok,
    ),
    (
        &["query", "t.d", "3400", "3430", "10", "average"],
        "",
        "ROWS 3 c\n3400 null\n3410 30\n3420 31\n",
        Status::Ok,
    ),
    (
        &["convert"],
        "CHART t.c n t u\nDIMENSION a\nDIMENSION b\nCHART t.d n t u\nDIMENSION c\nBEGIN t.c\n\
    SET a = 1\nSET b = 2\nEND\nBEGIN t.d\nSET c = 3\nEND\nMOMENT 5\n",
        "5 t.c a 1\n5 t.c b 2\n5 t.d c 3\n",
        Status::Ok,
    ),
    (&["collect", "1", "1", "p"], "", "", Status::SpawnFault),
    (
        RUN,
        "BEGIN t.c\nSET a = 70\nSET b = 1\nEND\nBEGIN t.d\nSET c = 2\nEND\nMOMENT 3430\n\
    BEGIN t.c\nSET a = 20\nSET b = 9\nEND\nBEGIN t.d\nSET c = 901\nEND\nMOMENT 3485\n",
        "STORED 5\nEVENT 6 3430 t.c high CLEAR WARNING 70 3440\n\
    EVENT 7 3430 t.c mean CLEAR WARNING 53.3333333 3430\nSTORED 6\n\
    EVENT 8 3485 t.c high WARNING CLEAR 20 3545\n\
    EVENT 9 3485 t.c mean WARNING CLEAR 20 3485\n\
    EVENT 10 3485 t.d slow CLEAR CRITICAL 901 3485\n",
        Status::Ok,
    ),
    (
        &["query", "t.c", "3400", "3500", "20", "min"],
        "",
        "ROWS 5 a b\n3400 10 -5\n3420 30 1\n3440 null null\n3460 null null\n3480 20 9\n",
        Status::Ok,
    ),
];

/// The next twenty.
static SECOND: [Step; 20] = [
    (
        &["query", "t.c", "3360", "3540", "60", "average"],
        "",
        "ROWS 3 a b\n3360 35 7.5\n3420 50 4\n3480 20 9\n",
        Status::Ok,
    ),
    (
        &["query", "t.c", "0", "7200", "3600", "anomaly-rate"],
        "",
        "ROWS 2 a b\n0 20 0\n3600 null null\n",
        Status::Ok,
    ),
    (
        &["query", "t.d", "3425", "3432", "1", "count"],
        "",
        "ROWS 7 c\n3425 1\n3426 null\n3427 null\n3428 null\n3429 null\n3430 1\n3431 null\n",
        Status::Ok,
    ),
    (RUN, "SET a = 1\n", "REFUSED 1 23\n", Status::Refused(1, 23)),
    (RUN, "MOMENT 3486\n", "STORED 7\n", Status::Ok),
    (
        &["query", "t.c", "3425", "3505", "5", "sum"],
        "",
        "ROWS 16 a b\n3425 30 7\n3430 70 1\n3435 null null\n3440 null null\n3445 null null\n\
    3450 null null\n3455 null null\n3460 null null\n3465 null null\n3470 null null\n\
    3475 null null\n3480 null null\n3485 20 9\n3490 null null\n3495 null null\n\
    3500 null null\n",
        Status::Ok,
    ),
    (
        HEALTH,
        "alarm: x\n",
        "REFUSED 1 43\n",
        Status::Refused(1, 43),
    ),
    (
        RUN,
        "BEGIN t.c\nSET a = 51\nSET b = 6\nEND\nBEGIN t.d\nSET c = 5\nEND\nMOMENT 3545\n",
        "STORED 8\nEVENT 11 3545 t.c high CLEAR WARNING 51 3555\n\
    EVENT 12 3545 t.c mean CLEAR WARNING 51 3545\n\
    EVENT 13 3545 t.d slow CRITICAL CLEAR 5 3545\n",
        Status::Ok,
    ),
    (
        &["query", "t.c", "3360", "3600", "60", "max"],
        "",
        "ROWS 4 a b\n3360 60 20\n3420 70 7\n3480 20 9\n3540 51 6\n",
        Status::Ok,
    ),
    (
        RUN,
        "BEGIN t.d\nSET c = 7\nEND\nMOMENT 3605\n",
        "STORED 9\nEVENT 14 3605 t.c mean WARNING UNDEFINED nan -\n",
        Status::Ok,
    ),
    (
        &["query", "t.d", "3600", "3606", "1", "sum"],
        "",
        "ROWS 6 c\n3600 null\n3601 null\n3602 null\n3603 null\n3604 null\n3605 7\n",
        Status::Ok,
    ),
    (
        HEALTH,
        "alarm: mean\non: t.c\nlookup: average -20s of a\nevery: 1s\nwarn: $this > 40\n\
    alarm: slow\non: t.d\ncalc: $c\nevery: 1m\ncrit: $this > 900\nalarm: low\non: t.d\n\
    calc: $c\nevery: 1s\nwarn: $this > 5\n",
        "STORED 10\nEVENT 15 3605 t.c high WARNING REMOVED nan -\n",
        Status::Ok,
    ),
    (
        LOG,
        "",
        "DROPPED 0\nEVENT 1 3410 t.c high UNINITIALIZED CLEAR 10 -\n\
    EVENT 2 3410 t.c mean UNINITIALIZED CLEAR 10 -\n\
    EVENT 3 3410 t.d slow UNINITIALIZED CLEAR 30 -\n\
    EVENT 4 3415 t.c high CLEAR WARNING 60 3425\n\
    EVENT 5 3425 t.c high WARNING CLEAR 30 3485\n\
    EVENT 6 3430 t.c high CLEAR WARNING 70 3440\n\
    EVENT 7 3430 t.c mean CLEAR WARNING 53.3333333 3430\n\
    EVENT 8 3485 t.c high WARNING CLEAR 20 3545\n\
    EVENT 9 3485 t.c mean WARNING CLEAR 20 3485\n\
    EVENT 10 3485 t.d slow CLEAR CRITICAL 901 3485\n\
    EVENT 11 3545 t.c high CLEAR WARNING 51 3555\n\
    EVENT 12 3545 t.c mean CLEAR WARNING 51 3545\n\
    EVENT 13 3545 t.d slow CRITICAL CLEAR 5 3545\n\
    EVENT 14 3605 t.c mean WARNING UNDEFINED nan -\n\
    EVENT 15 3605 t.c high WARNING REMOVED nan -\n",
        Status::Ok,
    ),
    (
        &["query", "t.c", "3480", "3660", "60", "average"],
        "",
        "ROWS 3 a b\n3480 20 9\n3540 51 6\n3600 null null\n",
        Status::Ok,
    ),
    (
        RUN,
        "BEGIN t.d\nSET c = 8\nEND\nMOMENT 3610\nBEGIN t.c\nSET a = 90\nSET b = 2\nEND\n\
    BEGIN t.d\nSET c = 9\nEND\nMOMENT 3615\n",
        "STORED 11\nEVENT 16 3610 t.d low UNINITIALIZED WARNING 8 3610\nSTORED 12\n\
    EVENT 17 3615 t.c mean UNDEFINED WARNING 90 3615\n",
        Status::Ok,
    ),
    (
        &["query", "t.c", "3405", "3445", "5", "average"],
        "",
        "ROWS 8 a b\n3405 null null\n3410 null null\n3415 null null\n3420 null null\n\
    3425 null null\n3430 null null\n3435 null null\n3440 null null\n",
        Status::Ok,
    ),
    (
        &["query", "t.c", "3420", "3660", "60", "sum"],
        "",
        "ROWS 4 a b\n3420 100 8\n3480 20 9\n3540 51 6\n3600 90 2\n",
        Status::Ok,
    ),
    (
        RUN,
        "BEGIN t.c\nSET a = 24\nSET b = 3\nEND\nBEGIN t.d\nSET c = 8\nEND\nMOMENT 3616\n",
        "STORED 13\n",
        Status::Ok,
    ),
    (
        RUN,
        "BEGIN t.c\nSET a = 26\nSET b = 1\nEND\nBEGIN t.d\nSET c = 10\nEND\nMOMENT 3620\n\
    BEGIN t.c\nSET a = 25\nSET b = 2\nEND\nBEGIN t.d\nSET c = 11\nEND\nMOMENT 3622\n",
        "STORED 14\nSTORED 15\nEVENT 18 3622 t.c mean WARNING UNDEFINED nan -\n",
        Status::Ok,
    ),
    (
        &["query", "t.c", "3590", "3630", "5", "average"],
        "",
        "ROWS 8 a b\n3590 null null\n3595 null null\n3600 null null\n3605 null null\n\
    3610 null null\n3615 null null\n3620 25.5 1.5\n3625 null null\n",
        Status::Ok,
    ),
];

/// Those up to the last, which is a session.
static THIRD: [Step; 19] = [
    (
        RUN,
        "BEGIN t.c\nSET a = 11 A\nSET b = 12\nEND\nBEGIN t.d\nSET c = 13\nEND\nMOMENT 3630\n\
    BEGIN t.c\nSET a = 12\nSET b = 13\nEND\nBEGIN t.d\nSET c = 14\nEND\nMOMENT 3665\n\
    BEGIN t.c\nSET a = 13\nSET b = 14\nEND\nBEGIN t.d\nSET c = 15\nEND\nMOMENT 3725\n",
        "STORED 16\nSTORED 17\nEVENT 19 3665 t.c mean UNDEFINED CLEAR 12 -\nSTORED 18\n",
        Status::Ok,
    ),
    (
        &["query", "t.c", "3600", "3780", "60", "count"],
        "",
        "ROWS 3 a b\n3600 5 5\n3660 1 1\n3720 1 1\n",
        Status::Ok,
    ),
    (
        RUN,
        "BEGIN t.c\nSET a = 14\nSET b = 15\nEND\nBEGIN t.d\nSET c = 16\nEND\nMOMENT 3785\n",
        "STORED 19\n",
        Status::Ok,
    ),
    (RUN, "MOMENT 3790\n", "STORED 20\n", Status::Ok),
    (
        RUN,
        "BEGIN t.c\nSET a = 15\nSET b = 16\nEND\nBEGIN t.d\nSET c = 17\nEND\nMOMENT 3845\n",
        "STORED 21\n",
        Status::Ok,
    ),
    (
        &["query", "t.c", "3540", "3900", "60", "sum"],
        "",
        "ROWS 6 a b\n3540 null null\n3600 176 20\n3660 12 13\n3720 13 14\n3780 14 15\n\
    3840 15 16\n",
        Status::Ok,
    ),
    (
        RUN,
        "BEGIN t.c\nSET a = 16\nSET b = 17\nEND\nBEGIN t.d\nSET c = 18\nEND\nMOMENT 3850\n",
        "STORED 22\n",
        Status::Ok,
    ),
    (
        &["query", "t.d", "3540", "3900", "60", "sum"],
        "",
        "ROWS 6 c\n3540 null\n3600 66\n3660 14\n3720 15\n3780 16\n3840 35\n",
        Status::Ok,
    ),
    (
        LOG,
        "",
        "DROPPED 0\nEVENT 1 3410 t.c high UNINITIALIZED CLEAR 10 -\n\
    EVENT 2 3410 t.c mean UNINITIALIZED CLEAR 10 -\n\
    EVENT 3 3410 t.d slow UNINITIALIZED CLEAR 30 -\n\
    EVENT 4 3415 t.c high CLEAR WARNING 60 3425\n\
    EVENT 5 3425 t.c high WARNING CLEAR 30 3485\n\
    EVENT 6 3430 t.c high CLEAR WARNING 70 3440\n\
    EVENT 7 3430 t.c mean CLEAR WARNING 53.3333333 3430\n\
    EVENT 8 3485 t.c high WARNING CLEAR 20 3545\n\
    EVENT 9 3485 t.c mean WARNING CLEAR 20 3485\n\
    EVENT 10 3485 t.d slow CLEAR CRITICAL 901 3485\n\
    EVENT 11 3545 t.c high CLEAR WARNING 51 3555\n\
    EVENT 12 3545 t.c mean CLEAR WARNING 51 3545\n\
    EVENT 13 3545 t.d slow CRITICAL CLEAR 5 3545\n\
    EVENT 14 3605 t.c mean WARNING UNDEFINED nan -\n\
    EVENT 15 3605 t.c high WARNING REMOVED nan -\n\
    EVENT 16 3610 t.d low UNINITIALIZED WARNING 8 3610\n\
    EVENT 17 3615 t.c mean UNDEFINED WARNING 90 3615\n\
    EVENT 18 3622 t.c mean WARNING UNDEFINED nan -\n\
    EVENT 19 3665 t.c mean UNDEFINED CLEAR 12 -\n",
        Status::Ok,
    ),
    (
        RUN,
        "BEGIN t.c\nSET a = 17\nSET b = 18\nEND\nBEGIN t.d\nSET c = 1000\nEND\nMOMENT 7205\n",
        "STORED 23\nEVENT 20 7205 t.d slow CLEAR CRITICAL 1000 7205\n",
        Status::Ok,
    ),
    (
        &["query", "t.d", "0", "10800", "3600", "average"],
        "",
        "ROWS 3 c\n0 null\n3600 12.1666667\n7200 1000\n",
        Status::Ok,
    ),
    (
        &["query", "t.d", "3600", "10800", "3600", "average"],
        "",
        "ROWS 2 c\n3600 12.1666667\n7200 1000\n",
        Status::Ok,
    ),
    (
        RUN,
        "BEGIN t.c\nSET a = 18\nSET b = 19\nEND\nBEGIN t.d\nSET c = 20\nEND\nMOMENT 7210\n\
    BEGIN t.c\nSET a = 18\nSET b = 19\nEND\nBEGIN t.d\nSET c = 1001\nEND\nMOMENT 7271\n",
        "STORED 24\nSTORED 25\n",
        Status::Ok,
    ),
    (
        &["query", "t.c", "0", "10800", "3600", "sum"],
        "",
        "ROWS 3 a b\n0 null null\n3600 246 95\n7200 53 56\n",
        Status::Ok,
    ),
    (
        &["query", "t.d", "3840", "3960", "60", "sum"],
        "",
        "ROWS 2 c\n3840 35\n3900 null\n",
        Status::Ok,
    ),
    (
        &["query", "t.c", "3840", "3860", "5", "sum"],
        "",
        "ROWS 4 a b\n3840 null null\n3845 null null\n3850 null null\n3855 null null\n",
        Status::Ok,
    ),
    (
        &["query", "t.c", "3840", "3860", "5", "median"],
        "",
        "ERROR 4\n",
        Status::Ok,
    ),
    (
        LOG,
        "",
        "DROPPED 0\nEVENT 1 3410 t.c high UNINITIALIZED CLEAR 10 -\n\
    EVENT 2 3410 t.c mean UNINITIALIZED CLEAR 10 -\n\
    EVENT 3 3410 t.d slow UNINITIALIZED CLEAR 30 -\n\
    EVENT 4 3415 t.c high CLEAR WARNING 60 3425\n\
    EVENT 5 3425 t.c high WARNING CLEAR 30 3485\n\
    EVENT 6 3430 t.c high CLEAR WARNING 70 3440\n\
    EVENT 7 3430 t.c mean CLEAR WARNING 53.3333333 3430\n\
    EVENT 8 3485 t.c high WARNING CLEAR 20 3545\n\
    EVENT 9 3485 t.c mean WARNING CLEAR 20 3485\n\
    EVENT 10 3485 t.d slow CLEAR CRITICAL 901 3485\n\
    EVENT 11 3545 t.c high CLEAR WARNING 51 3555\n\
    EVENT 12 3545 t.c mean CLEAR WARNING 51 3545\n\
    EVENT 13 3545 t.d slow CRITICAL CLEAR 5 3545\n\
    EVENT 14 3605 t.c mean WARNING UNDEFINED nan -\n\
    EVENT 15 3605 t.c high WARNING REMOVED nan -\n\
    EVENT 16 3610 t.d low UNINITIALIZED WARNING 8 3610\n\
    EVENT 17 3615 t.c mean UNDEFINED WARNING 90 3615\n\
    EVENT 18 3622 t.c mean WARNING UNDEFINED nan -\n\
    EVENT 19 3665 t.c mean UNDEFINED CLEAR 12 -\n\
    EVENT 20 7205 t.d slow CLEAR CRITICAL 1000 7205\n",
        Status::Ok,
    ),
    (
        &["log", "json"],
        "",
        "{\"dropped\":0,\"events\":[{\"alarm\":\"high\",\"chart\":\"t.c\",\"due\":null,\"id\":1,\
    \"moment\":3410,\"new\":\"CLEAR\",\"old\":\"UNINITIALIZED\",\"value\":\"10\"},\
    {\"alarm\":\"mean\",\"chart\":\"t.c\",\"due\":null,\"id\":2,\"moment\":3410,\"new\":\"CLEAR\",\
    \"old\":\"UNINITIALIZED\",\"value\":\"10\"},{\"alarm\":\"slow\",\"chart\":\"t.d\",\"due\":null,\
    \"id\":3,\"moment\":3410,\"new\":\"CLEAR\",\"old\":\"UNINITIALIZED\",\"value\":\"30\"},\
    {\"alarm\":\"high\",\"chart\":\"t.c\",\"due\":3425,\"id\":4,\"moment\":3415,\"new\":\"WARNING\",\
    \"old\":\"CLEAR\",\"value\":\"60\"},{\"alarm\":\"high\",\"chart\":\"t.c\",\"due\":3485,\"id\":5,\
    \"moment\":3425,\"new\":\"CLEAR\",\"old\":\"WARNING\",\"value\":\"30\"},{\"alarm\":\"high\",\
    \"chart\":\"t.c\",\"due\":3440,\"id\":6,\"moment\":3430,\"new\":\"WARNING\",\"old\":\"CLEAR\",\
    \"value\":\"70\"},{\"alarm\":\"mean\",\"chart\":\"t.c\",\"due\":3430,\"id\":7,\"moment\":3430,\
    \"new\":\"WARNING\",\"old\":\"CLEAR\",\"value\":\"53.3333333\"},{\"alarm\":\"high\",\
    \"chart\":\"t.c\",\"due\":3545,\"id\":8,\"moment\":3485,\"new\":\"CLEAR\",\"old\":\"WARNING\",\
    \"value\":\"20\"},{\"alarm\":\"mean\",\"chart\":\"t.c\",\"due\":3485,\"id\":9,\"moment\":3485,\
    \"new\":\"CLEAR\",\"old\":\"WARNING\",\"value\":\"20\"},{\"alarm\":\"slow\",\"chart\":\"t.d\",\
    \"due\":3485,\"id\":10,\"moment\":3485,\"new\":\"CRITICAL\",\"old\":\"CLEAR\",\
    \"value\":\"901\"},{\"alarm\":\"high\",\"chart\":\"t.c\",\"due\":3555,\"id\":11,\"moment\":3545,\
    \"new\":\"WARNING\",\"old\":\"CLEAR\",\"value\":\"51\"},{\"alarm\":\"mean\",\"chart\":\"t.c\",\
    \"due\":3545,\"id\":12,\"moment\":3545,\"new\":\"WARNING\",\"old\":\"CLEAR\",\"value\":\"51\"},\
    {\"alarm\":\"slow\",\"chart\":\"t.d\",\"due\":3545,\"id\":13,\"moment\":3545,\"new\":\"CLEAR\",\
    \"old\":\"CRITICAL\",\"value\":\"5\"},{\"alarm\":\"mean\",\"chart\":\"t.c\",\"due\":null,\
    \"id\":14,\"moment\":3605,\"new\":\"UNDEFINED\",\"old\":\"WARNING\",\"value\":\"nan\"},\
    {\"alarm\":\"high\",\"chart\":\"t.c\",\"due\":null,\"id\":15,\"moment\":3605,\
    \"new\":\"REMOVED\",\"old\":\"WARNING\",\"value\":\"nan\"},{\"alarm\":\"low\",\"chart\":\"t.d\",\
    \"due\":3610,\"id\":16,\"moment\":3610,\"new\":\"WARNING\",\"old\":\"UNINITIALIZED\",\
    \"value\":\"8\"},{\"alarm\":\"mean\",\"chart\":\"t.c\",\"due\":3615,\"id\":17,\"moment\":3615,\
    \"new\":\"WARNING\",\"old\":\"UNDEFINED\",\"value\":\"90\"},{\"alarm\":\"mean\",\"chart\":\"t.c\",\
    \"due\":null,\"id\":18,\"moment\":3622,\"new\":\"UNDEFINED\",\"old\":\"WARNING\",\
    \"value\":\"nan\"},{\"alarm\":\"mean\",\"chart\":\"t.c\",\"due\":null,\"id\":19,\"moment\":3665,\
    \"new\":\"CLEAR\",\"old\":\"UNDEFINED\",\"value\":\"12\"},{\"alarm\":\"slow\",\"chart\":\"t.d\",\
    \"due\":7205,\"id\":20,\"moment\":7205,\"new\":\"CRITICAL\",\"old\":\"CLEAR\",\
    \"value\":\"1000\"}]}\n",
        Status::Ok,
    ),
];
