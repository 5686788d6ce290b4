// The command set, by its worked words.
use ow_command_line::{Command, ServeWords, WordsRefusal, read_words};
use ow_value::{NoMemory, Str};
use std::alloc::Global;

// The words, which a `|` parts.
fn words_of(alloc: Global, line: &str) -> Result<Vec<String>, NoMemory> {
    let mut words = Vec::new(alloc);
    for word in line.split('|') {
        words.push(String::from_str(alloc, word)?)?;
    }
    Ok(words)
}

// The command of the words.
fn read(alloc: Global, line: &str) -> Result<Command, WordsRefusal> {
    let words = words_of(alloc, line)?;
    read_words(alloc, &words)
}

fn named(file: &Option<Str>) -> &str {
    match file {
        Some(name) => name.as_str(),
        None => "",
    }
}

// Whether the words ask for a day with these files. An empty name means none.
fn is_day(alloc: Global, line: &str, wants_table: &str, wants_store: &str) -> bool {
    match read(alloc, line) {
        Ok(Command::Day { table, store }) => {
            named(&table) == wants_table && named(&store) == wants_store
        }
        _ => false,
    }
}

// Whether the words ask for a service with these numbers and files. An empty name means none.
fn is_service(
    alloc: Global,
    line: &str,
    port: u16,
    workers: u32,
    connections: Option<u64>,
    files: (&str, &str),
) -> bool {
    let Ok(Command::Serve(asked)) = read(alloc, line) else {
        return false;
    };
    let ServeWords { table, store, .. } = &asked;
    let are_files = named(table) == files.0 && named(store) == files.1;
    (asked.port, asked.workers, asked.connections) == (port, workers, connections) && are_files
}

#[test]
fn services(rt: HostRuntime) {
    let most = u64::MAX;
    for (line, port, workers, connections, files) in [
        ("serve|--port|8080", 8080, 4, None, ("", "")),
        ("serve|--port=0", 0, 4, None, ("", "")),
        ("serve|--port=65535|--workers=1", 65535, 1, None, ("", "")),
        ("serve|--workers|64|--port|1", 1, 64, None, ("", "")),
        ("serve|--connections|0|--port|1", 1, 4, Some(0), ("", "")),
        (
            "serve|--port|1|--connections=18446744073709551615",
            1,
            4,
            Some(most),
            ("", ""),
        ),
        ("serve|--table|t|--port|1", 1, 4, None, ("t", "")),
        ("serve|--port|1|--store=s", 1, 4, None, ("", "s")),
        (
            "serve|--store|s|--connections|2|--table=t|--workers=3|--port|1",
            1,
            3,
            Some(2),
            ("t", "s"),
        ),
    ] {
        assert!(rt;
            is_service(rt.alloc(), line, port, workers, connections, files),
            "{line}"
        );
    }
}

#[test]
fn days(rt: HostRuntime) {
    for (line, table, store) in [
        ("day", "", ""),
        ("day|--table|t.csv", "t.csv", ""),
        ("day|--table=t.csv", "t.csv", ""),
        ("day|--store|s.db", "", "s.db"),
        ("day|--store=s=1", "", "s=1"),
        ("day|--table|t|--store|s", "t", "s"),
        ("day|--store=s|--table=t", "t", "s"),
        ("day|--table|t|--store=s", "t", "s"),
        ("day|--store|day|--table=a b", "a b", "day"),
    ] {
        assert!(rt; is_day(rt.alloc(), line, table, store), "{line}");
    }
}

#[test]
fn words_alone(rt: HostRuntime) {
    let alloc = rt.alloc();
    assert!(rt; matches!(read(alloc, "--help"), Ok(Command::Help)));
    assert!(rt; matches!(read(alloc, "--version"), Ok(Command::Version)));
    assert!(rt; matches!(read_words(alloc, &[]), Err(WordsRefusal::BadWords)));
}

// Whether the words ask for nothing that there is.
fn is_bad(alloc: Global, line: &str) -> bool {
    matches!(read(alloc, line), Err(WordsRefusal::BadWords))
}

#[test]
fn bad_words_of_days(rt: HostRuntime) {
    for line in [
        "",
        "days",
        "Day",
        "help",
        "-h",
        "--help|day",
        "day|--help",
        "day|-h",
        "day|day",
        "day|--",
        "day|-",
        "day|--table",
        "day|--table=",
        "day|--table|",
        "day|--table|-x",
        "day|--table=-x",
        "day|--table|t|--",
        "day|--table|--store|s",
        "day|--table|a|--table|b",
        "day|--store=a|--store=a",
        "day|--tab|t",
        "day|--port|1",
        "day|-t|t",
        "--table|t|day",
    ] {
        assert!(rt; is_bad(rt.alloc(), line), "{line}");
    }
}

#[test]
fn bad_words_of_services(rt: HostRuntime) {
    for line in [
        "serve",
        "Serve|--port|1",
        "serve|--port",
        "serve|--port=",
        "serve|--port|-1",
        "serve|--port|+1",
        "serve|--port|01",
        "serve|--port|1 ",
        "serve|--port|http",
        "serve|--port|65536",
        "serve|--port|1|--port|1",
        "serve|--workers|4",
        "serve|--port|1|--workers|0",
        "serve|--port|1|--workers|65",
        "serve|--port|1|--workers|4|--workers|4",
        "serve|--port|1|--workers|18446744073709551617",
        "serve|--port|1|--connections|18446744073709551616",
        "serve|--port|1|--connections|00",
        "serve|--port|1|--seed|1",
        "serve|1",
        "serve|--port|1|day",
        "serve|--help",
        "--port|1|serve",
    ] {
        assert!(rt; is_bad(rt.alloc(), line), "{line}");
    }
}
