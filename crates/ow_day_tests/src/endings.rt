// How the office ends for words, tables, days and faults.
use crate::days::{Given, OVER_TABLE, TABLE, Told, office_over};
use ow_command_line::{ServeWords, Status};
use ow_office::HELP;
use ow_tenant::Tenants;
use ow_value::Str;
use std::alloc::{AllocError, Global};
use std::test::Fail;

// What one call of the office is given, and the outcome that is expected.
struct Ending {
    given: Given<'static>,
    // The status by its number.
    status: u8,
    // How many bytes of the day are left.
    left: usize,
    out: &'static [u8],
    err: &'static [u8],
}

// The words for a service over the table.
const SERVE_TABLE: &[&str] = &["serve", "--port", "3233", "--table", "office.csv"];

const ENDINGS: [Ending; 15] = [
    Ending {
        given: Given {
            words: OVER_TABLE,
            table: TABLE,
            failing_table: &[],
            day: b"next\nnext",
            failing_reads: &[1],
            failing_writes: &[],
        },
        status: 3,
        left: 0,
        out: b"nothing empty\n",
        err: b"read fault\n",
    },
    Ending {
        given: Given {
            words: OVER_TABLE,
            table: TABLE,
            failing_table: &[],
            day: b"next\nnext\nend\n",
            failing_reads: &[],
            failing_writes: &[0],
        },
        status: 4,
        left: 0,
        out: b"",
        err: b"write fault\n",
    },
    Ending {
        given: Given {
            words: OVER_TABLE,
            table: TABLE,
            failing_table: &[],
            day: b"next\nnex\n",
            failing_reads: &[],
            failing_writes: &[],
        },
        status: 1,
        left: 0,
        out: b"nothing empty\n",
        err: b"bad day at 2\n",
    },
    // A key of no namespace, and two namespaces of one number.
    Ending {
        given: Given {
            words: OVER_TABLE,
            table: b"key,k1,anna,guest,,\n",
            failing_table: &[],
            day: b"next\n",
            failing_reads: &[],
            failing_writes: &[],
        },
        status: 6,
        left: 5,
        out: b"",
        err: b"bad table at 1\n",
    },
    Ending {
        given: Given {
            words: &["day", "--table=office.csv"],
            table: b"namespace,1,guest,,,\nnamespace,1,shop,,,\n",
            failing_table: &[],
            day: b"next\n",
            failing_reads: &[],
            failing_writes: &[],
        },
        status: 6,
        left: 5,
        out: b"",
        err: b"bad table at 2\n",
    },
    // The table can't be read.
    Ending {
        given: Given {
            words: OVER_TABLE,
            table: TABLE,
            failing_table: &[0],
            day: b"next\n",
            failing_reads: &[],
            failing_writes: &[],
        },
        status: 3,
        left: 5,
        out: b"",
        err: b"read fault\n",
    },
    // None is named, and none is read.
    Ending {
        given: Given {
            words: &["day"],
            table: TABLE,
            failing_table: &[0],
            day: b"next\n",
            failing_reads: &[],
            failing_writes: &[],
        },
        status: 0,
        left: 0,
        out: b"nothing empty\n",
        err: b"",
    },
    Ending {
        given: Given {
            words: &["--version"],
            table: b"",
            failing_table: &[],
            day: b"",
            failing_reads: &[],
            failing_writes: &[],
        },
        status: 0,
        left: 0,
        out: b"ow_whisk 0.1.0\n",
        err: b"",
    },
    // A service is passed on without a word, and its day isn't read.
    Ending {
        given: Given {
            words: SERVE_TABLE,
            table: TABLE,
            failing_table: &[],
            day: b"next\n",
            failing_reads: &[0],
            failing_writes: &[0],
        },
        status: 0,
        left: 5,
        out: b"",
        err: b"",
    },
    // It isn't where its table is bad, or can't be read.
    Ending {
        given: Given {
            words: SERVE_TABLE,
            table: b"key,k1,anna,guest,,\n",
            failing_table: &[],
            day: b"next\n",
            failing_reads: &[],
            failing_writes: &[],
        },
        status: 6,
        left: 5,
        out: b"",
        err: b"bad table at 1\n",
    },
    Ending {
        given: Given {
            words: &["serve", "--table=office.csv", "--port=3233"],
            table: b"namespace,1,guest,,,\nnamespace,1,shop,,,\n",
            failing_table: &[],
            day: b"next\n",
            failing_reads: &[],
            failing_writes: &[],
        },
        status: 6,
        left: 5,
        out: b"",
        err: b"bad table at 2\n",
    },
    Ending {
        given: Given {
            words: SERVE_TABLE,
            table: TABLE,
            failing_table: &[0],
            day: b"next\n",
            failing_reads: &[],
            failing_writes: &[],
        },
        status: 3,
        left: 5,
        out: b"",
        err: b"read fault\n",
    },
    // A manifest whose second read fails, and a deployment whose line isn't written.
    Ending {
        given: Given {
            words: &["deploy", "--table", "office.csv"],
            table: TABLE,
            failing_table: &[],
            day: b"namespace = \"guest\"\n",
            failing_reads: &[1],
            failing_writes: &[],
        },
        status: 3,
        left: 0,
        out: b"",
        err: b"read fault\n",
    },
    Ending {
        given: Given {
            words: &["deploy", "--table", "office.csv"],
            table: TABLE,
            failing_table: &[],
            day: b"namespace = \"guest\"\n",
            failing_reads: &[],
            failing_writes: &[0],
        },
        status: 4,
        left: 0,
        out: b"",
        err: b"write fault\n",
    },
    // None is named, and none is read.
    Ending {
        given: Given {
            words: &["serve", "--port", "3233"],
            table: TABLE,
            failing_table: &[0],
            day: b"next\n",
            failing_reads: &[],
            failing_writes: &[],
        },
        status: 0,
        left: 5,
        out: b"",
        err: b"",
    },
];

// The words of a service and the table that they name, with what is passed on of both: the port, the workers, the connections, the files
// of the table and of the store; the memory of all containers; and who holds the key k1, with the number of the home and its limits.
const SERVICES: [(&[&str], &[u8], &str); 3] = [
    (
        SERVE_TABLE,
        TABLE,
        " 3233 4 none office.csv none 2048 anna guest 1 120 100 60",
    ),
    (
        &[
            "serve",
            "--store=rows.db",
            "--connections",
            "2",
            "--table=shops.csv",
            "--workers=64",
            "--port=0",
        ],
        b"namespace,1,guest,,,\nnamespace,7,shop,5,0,6\npool,512,,,,\nkey,k1,bert,shop,,\n",
        " 0 64 2 shops.csv rows.db 512 bert shop 7 5 0 6",
    ),
    // No table is named: it has no rows.
    (
        &[
            "serve",
            "--connections=18446744073709551615",
            "--port=65535",
            "--workers",
            "1",
        ],
        TABLE,
        " 65535 1 18446744073709551615 none none 2048",
    ),
];

// Words that are in no command.
const BAD_WORDS: [&[&str]; 15] = [
    &[],
    &["days"],
    &["day", "--table"],
    &["day", "--table="],
    &["day", "--table", "-a"],
    &["day", "office.csv"],
    &["day", "--table", "a", "--table=b"],
    &["--table=a", "day"],
    &["day", "--store"],
    &["day", "--store=a", "--store", "b"],
    &["day", "--port", "1"],
    &["serve"],
    &["serve", "--table", "office.csv"],
    &["serve", "--port", "65536"],
    &["serve", "--port", "1", "--workers", "65"],
];

// Whether the office ends so.
fn has_ending(alloc: Global, case: &Ending) -> Result<bool, Fail> {
    let told = office_over(alloc, case.given)?;
    let is_written = told.out.bytes() == case.out && told.err.bytes() == case.err;
    Ok(told.status.number() == case.status && told.left == case.left && is_written)
}

#[test]
fn faults_and_bad_tables_have_their_status(rt: HostRuntime) -> Result<(), Fail> {
    for (number, case) in ENDINGS.iter().enumerate() {
        assert!(rt; has_ending(rt.alloc(), case)?, "ending {number}");
    }
    Ok(())
}

// Whether the help is written whole, and nothing else.
fn is_help_written(alloc: Global) -> Result<bool, Fail> {
    let given = Given {
        words: &["--help"],
        table: b"",
        failing_table: &[],
        day: b"",
        failing_reads: &[],
        failing_writes: &[],
    };
    let told = office_over(alloc, given)?;
    let is_written = told.out.bytes() == HELP && told.err.bytes().is_empty();
    Ok(told.status.number() == 0 && told.left == 0 && is_written)
}

#[test]
fn help_is_written_whole(rt: HostRuntime) -> Result<(), Fail> {
    assert!(rt; is_help_written(rt.alloc())?, "the help's text");
    Ok(())
}

// Whether these words are reported as bad, and the day isn't read.
fn are_bad(alloc: Global, words: &[&str]) -> Result<bool, Fail> {
    let given = Given {
        words,
        table: TABLE,
        failing_table: &[],
        day: b"next\n",
        failing_reads: &[],
        failing_writes: &[],
    };
    let told = office_over(alloc, given)?;
    let is_told = told.err.bytes() == b"bad words\n".as_slice();
    Ok(told.status.number() == 2 && told.left == 5 && is_told)
}

#[test]
fn other_words_are_bad(rt: HostRuntime) -> Result<(), Fail> {
    for (number, words) in BAD_WORDS.iter().enumerate() {
        assert!(rt; are_bad(rt.alloc(), words)?, "words {number}");
    }
    Ok(())
}

// Appends a blank and a word.
fn put(text: &mut String, word: &str) -> Result<(), AllocError> {
    text.push_str(" ")?;
    text.push_str(word)
}

fn put_numbers(alloc: Global, text: &mut String, numbers: &[u64]) -> Result<(), Fail> {
    for number in numbers {
        put(text, &format!(in alloc; "{number}")?)?;
    }
    Ok(())
}

fn named(file: &Option<Str>) -> &str {
    match file {
        Some(name) => name.as_str(),
        None => "none",
    }
}

// What the words of a service say.
fn put_words(alloc: Global, text: &mut String, asked: &ServeWords) -> Result<(), Fail> {
    let numbers = [u64::from(asked.port), u64::from(asked.workers)];
    put_numbers(alloc, text, &numbers)?;
    match asked.connections {
        Some(most) => put_numbers(alloc, text, &[most])?,
        None => put(text, "none")?,
    }
    put(text, named(&asked.table))?;
    put(text, named(&asked.store))?;
    Ok(())
}

// What its table says of the pool, and of the key k1, if it has it.
fn put_table(alloc: Global, text: &mut String, tenants: &Tenants) -> Result<(), Fail> {
    put_numbers(alloc, text, &[u64::from(tenants.pool())])?;
    let Some(holder) = tenants.holder_of(Some("k1")) else {
        return Ok(());
    };
    put(text, holder.subject.as_str())?;
    put(text, holder.home.as_str())?;
    let number = tenants.number_of(&holder.home).unwrap_or(0);
    let limits = tenants.limits_of(&holder.home);
    put_numbers(
        alloc,
        text,
        &[
            number,
            u64::from(limits.per_minute),
            u64::from(limits.concurrent),
            u64::from(limits.fires),
        ],
    )
}

// What is passed on to be served.
fn passed_text(alloc: Global, told: &Told) -> Result<String, Fail> {
    let Status::Passed(asked, tenants) = &told.status else {
        return Err("no service is passed on")?;
    };
    let mut text = String::new(alloc);
    put_words(alloc, &mut text, asked)?;
    put_table(alloc, &mut text, tenants)?;
    Ok(text)
}

// What the office passes on for these words.
fn passed_over(alloc: Global, words: &[&str], table: &[u8]) -> Result<String, Fail> {
    let given = Given {
        words,
        table,
        failing_table: &[],
        day: b"",
        failing_reads: &[],
        failing_writes: &[],
    };
    let told = office_over(alloc, given)?;
    passed_text(alloc, &told)
}

// Whether this is what the office passes on.
fn is_passed(alloc: Global, words: &[&str], table: &[u8], text: &str) -> Result<bool, Fail> {
    let passed = passed_over(alloc, words, table)?;
    Ok(passed.as_str() == text)
}

#[test]
fn services_are_passed_on(rt: HostRuntime) -> Result<(), Fail> {
    for (number, (words, table, text)) in SERVICES.iter().enumerate() {
        assert!(rt;
            is_passed(rt.alloc(), words, table, text)?,
            "service {number}"
        );
    }
    Ok(())
}
