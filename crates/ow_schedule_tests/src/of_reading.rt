// Schedules that are read from values, and the refusals of values that are none.
use crate::reading::{equals, read, shown};
use ow_schedule::{AlarmRefusal, ScheduleField};
use std::test::Fail;

// Values, and the field that their refusal names.
const REFUSED: [(&str, &str); 31] = [
    ("null", "alarm"),
    ("[]", "alarm"),
    (r#""* * * * *""#, "alarm"),
    ("{}", "alarm"),
    (r#"{"from":0}"#, "alarm"),
    (r#"{"every":60000,"once":5,"from":0}"#, "alarm"),
    (r#"{"every":null,"cron":"* * * * *","from":0}"#, "alarm"),
    (r#"{"cron":"* * * * *","every":60000,"once":5}"#, "alarm"),
    (r#"{"every":59999,"from":0}"#, "every"),
    (r#"{"every":31622400001,"from":0}"#, "every"),
    (r#"{"every":null,"from":0}"#, "every"),
    (r#"{"every":"60000","from":0}"#, "every"),
    (r#"{"every":-60000}"#, "every"),
    (r#"{"every":60000}"#, "from"),
    (r#"{"every":60000,"from":null}"#, "from"),
    (r#"{"every":60000,"from":-1}"#, "from"),
    (r#"{"every":60000,"from":253402300800000}"#, "from"),
    (r#"{"once":-1}"#, "once"),
    (r#"{"once":253402300800000}"#, "once"),
    (r#"{"once":"5"}"#, "once"),
    (r#"{"once":null}"#, "once"),
    (r#"{"cron":5,"from":0}"#, "cron"),
    (r#"{"cron":"","from":0}"#, "cron"),
    (r#"{"cron":"60 * * * *","from":-1,"zone":5}"#, "cron"),
    (r#"{"cron":"* * * * *","zone":5}"#, "from"),
    (r#"{"cron":"* * * * *","from":0,"zone":5}"#, "zone"),
    (r#"{"cron":"* * * * *","from":0,"zone":null}"#, "zone"),
    (r#"{"cron":"* * * * *","from":0,"zone":""}"#, "zone"),
    (
        r#"{"cron":"* * * * *","from":0,"zone":"Europe/Berlin"}"#,
        "zone",
    ),
    (
        r#"{"cron":"* * * * *","from":0,"zone":"CET-1CEST"}"#,
        "zone",
    ),
    (r#"{"cron":"* * * * *","from":0,"zone":"UTC0 "}"#, "zone"),
];

// Texts that are no cron texts.
const NOT_CRON: [&str; 38] = [
    "* * * *",
    "* * * * * *",
    "*  * * * *",
    " * * * * *",
    "* * * * * ",
    "60 * * * *",
    "* 24 * * *",
    "* * 0 * *",
    "* * 32 * *",
    "* * * 0 *",
    "* * * 13 *",
    "* * * * 8",
    "05 * * * *",
    "00 * * * *",
    "100 * * * *",
    "+1 * * * *",
    "-1 * * * *",
    "1- * * * *",
    "5-3 * * * *",
    "1-2-3 * * * *",
    "1/2 * * * *",
    "*/0 * * * *",
    "*/60 * * * *",
    "*/05 * * * *",
    "*/ * * * *",
    "/5 * * * *",
    "*/1/1 * * * *",
    "1,,2 * * * *",
    ", * * * *",
    "1, * * * *",
    "** * * * *",
    "*-5 * * * *",
    "? * * * *",
    "* * L * *",
    "* * * JAN *",
    "* * * * MON",
    "@daily",
    "*\\t* * * *",
];

// Values, the first and the last moment of a range, and the due moments in it.
const READ: [(&str, u64, u64, &str); 11] = [
    (
        r#"{"once":253402300799999,"from":-1,"zone":7,"other":[]}"#,
        253402300799999,
        253402300799999,
        "253402300799999",
    ),
    (r#"{"once":5}"#, 0, 4, ""),
    (r#"{"once":5}"#, 5, 5, "5"),
    (r#"{"once":5}"#, 6, 100, ""),
    (
        r#"{"every":60000,"from":0,"zone":7}"#,
        0,
        120000,
        "0 60000 120000",
    ),
    (
        r#"{"every":90000,"from":100000}"#,
        0,
        300000,
        "100000 190000 280000",
    ),
    (r#"{"every":90000,"from":100000}"#, 190000, 190000, "190000"),
    (r#"{"every":90000,"from":100000}"#, 190001, 279999, ""),
    (
        r#"{"cron":"* * * * *","from":253402300799999}"#,
        0,
        18446744073709551615,
        "",
    ),
    (r#"{"cron":"0 0 1 1 *","from":0,"zone":"UTC0"}"#, 0, 0, "0"),
    (
        r#"{"cron":"0 0 1 1 *","from":0,"zone":"UTC+0"}"#,
        0,
        31536000000,
        "0 31536000000",
    ),
];

#[test]
fn the_first_wrong_field_is_named(rt: HostRuntime) -> Result<(), Fail> {
    let alloc = rt.alloc();
    for (text, field) in &REFUSED {
        let wanted = format!(in alloc; "The schedule field {field} is wrong.")?;
        equals(shown(alloc, text, 0, 0)?, wanted.as_str())?;
    }
    Ok(())
}

#[test]
fn other_texts_are_no_cron_texts(rt: HostRuntime) -> Result<(), Fail> {
    let alloc = rt.alloc();
    for cron in &NOT_CRON {
        let value = format!(in alloc; "{{\"cron\":\"{cron}\",\"from\":0}}")?;
        equals(
            shown(alloc, value.as_str(), 0, 0)?,
            "The schedule field cron is wrong.",
        )?;
    }
    Ok(())
}

#[test]
fn fields_of_other_kinds_are_ignored(rt: HostRuntime) -> Result<(), Fail> {
    for (text, since, until, wanted) in &READ {
        equals(shown(rt.alloc(), text, *since, *until)?, wanted)?;
    }
    Ok(())
}

#[test]
fn a_refusal_has_its_number(rt: HostRuntime) -> Result<(), Fail> {
    let refusal = read(rt.alloc(), "{}")?.err();
    assert!(rt;
        refusal
            == Some(AlarmRefusal::BadSchedule {
                field: ScheduleField::Alarm
            })
    );
    assert!(rt; refusal.map(AlarmRefusal::number) == Some(47));
    Ok(())
}
