// The office table: which rows are bad, and what a good table says.
use ow_names::{EntityName, read_name};
use ow_tenant::{MOST_BYTES, NamespaceLimits, Right, TenantRefusal, Tenants};
use ow_traits::{Kind, MemorySource, Source};
use ow_value::{PlainData, Val, write_val};
use std::alloc::{AllocError, Global};
use std::test::Fail;

// The table of the text, in a box.
fn read(alloc: Global, text: &[u8]) -> Result<Box<Tenants>, TenantRefusal> {
    let mut source = MemorySource::new(copied(alloc, text)?, Vec::new(alloc));
    let tenants = Tenants::read(alloc, &mut source)?;
    match Box::new(alloc, tenants) {
        Ok(held) => Ok(held),
        Err(_) => Err(TenantRefusal::NoMemory),
    }
}

fn copied(alloc: Global, text: &[u8]) -> Result<Vec<u8>, TenantRefusal> {
    match text.to_vec(alloc) {
        Ok(bytes) => Ok(bytes),
        Err(_) => Err(TenantRefusal::NoMemory),
    }
}

// What is wrong with the text, if anything.
fn fault(alloc: Global, text: &[u8]) -> Result<(), TenantRefusal> {
    read(alloc, text)?;
    Ok(())
}

const OFFICE: &str = "namespace,1,guest,,,\nnamespace,7,other,1,2,3\nkey,k1,anna,guest,,\n";

#[test]
fn good_tables(rt: HostRuntime) {
    let alloc = rt.alloc();
    for text in [
        "",
        "\n\r\n",
        "\u{feff}namespace,1,guest,,,",
        "namespace,4294967295,a b,0,4294967295,0\r\n",
        "\"namespace\",\"1\",\"guest\",,,\n",
        "namespace,1,guest,,,\nkey,!~,\u{e4},guest,,\ngrant,!~,guest,read,,\ngrant,!~,guest,read,,\n",
        "pool,512,,,,\nprewarm,plain:1,128,512,,\nprewarm,plain:1,512,1,,\nprewarm,program:1,128,1,,\n",
        "program,a,b,,,\nprogram,\"a,b\",/usr/bin/b,,,\n",
    ]
    .iter()
    {
        assert_eq!(rt; fault(alloc, text.as_bytes()), Ok(()));
    }
}

// The refusal of a table whose first bad row is this one, from 1.
fn bad(row: u64) -> TenantRefusal {
    TenantRefusal::BadRow { row }
}

#[test]
fn a_bad_row_is_told_by_number_22(rt: HostRuntime) {
    assert_eq!(rt; bad(1).number(), 22);
}

#[test]
fn bad_namespaces(rt: HostRuntime) {
    let alloc = rt.alloc();
    for (row, text) in [
        (1, "key,k1,anna,guest,,"),
        (1, "namespace,1,guest,,"),
        (1, "namespace,1,guest,,,,"),
        (1, "spaces,1,guest,,,"),
        (1, "Namespace,1,guest,,,"),
        (1, " namespace,1,guest,,,"),
        (1, "namespace,0,guest,,,"),
        (1, "namespace,01,guest,,,"),
        (1, "namespace,+1,guest,,,"),
        (1, "namespace,4294967296,guest,,,"),
        (1, "namespace,,guest,,,"),
        (1, "namespace,1,,,,"),
        (1, "namespace,1,_,,,"),
        (1, "namespace,1,whisk.system,,,"),
        (1, "namespace,1,guest ,,,"),
        (1, "namespace,1,guest,4294967296,,"),
        (1, "namespace,1,guest,,x,"),
        (1, "namespace,1,guest,,,00"),
        (2, "namespace,1,guest,,,\nnamespace,1,other,,,"),
        (2, "namespace,1,guest,,,\nnamespace,2,guest,,,"),
    ]
    .iter()
    {
        assert_eq!(rt; fault(alloc, text.as_bytes()), Err(bad(*row)));
    }
}

#[test]
fn bad_keys_and_grants(rt: HostRuntime) {
    let alloc = rt.alloc();
    for (row, text) in [
        (2, "namespace,1,guest,,,\n\n\r\nkey,,anna,guest,,"),
        (2, "namespace,1,guest,,,\nkey,a b,anna,guest,,"),
        (2, "namespace,1,guest,,,\nkey,\u{7f},anna,guest,,"),
        (2, "namespace,1,guest,,,\nkey,\u{e4},anna,guest,,"),
        (2, "namespace,1,guest,,,\nkey,k1,,guest,,"),
        (2, "namespace,1,guest,,,\nkey,k1,anna,whisk.system,,"),
        (2, "namespace,1,guest,,,\nkey,k1,anna,other,,"),
        (2, "namespace,1,guest,,,\nkey,k1,anna,guest,x,"),
        (
            3,
            "namespace,1,guest,,,\nkey,k1,anna,guest,,\nkey,k1,bert,guest,,",
        ),
        (2, "namespace,1,guest,,,\ngrant,k1,guest,read,,"),
        (
            3,
            "namespace,1,guest,,,\nkey,k1,anna,guest,,\ngrant,k1,other,read,,",
        ),
        (
            3,
            "namespace,1,guest,,,\nkey,k1,anna,guest,,\ngrant,k1,guest,all,,",
        ),
        (
            3,
            "namespace,1,guest,,,\nkey,k1,anna,guest,,\ngrant,k1,guest,read,x,",
        ),
    ]
    .iter()
    {
        assert_eq!(rt; fault(alloc, text.as_bytes()), Err(bad(*row)));
    }
}

#[test]
fn bad_pools_prewarms_and_programs(rt: HostRuntime) {
    let alloc = rt.alloc();
    for (row, text) in [
        (1, "pool,511,,,,"),
        (1, "pool,65537,,,,"),
        (1, "pool,512,x,,,"),
        (2, "pool,512,,,,\npool,512,,,,"),
        (1, "prewarm,plain:2,256,1,,"),
        (1, "prewarm,plain:1,127,1,,"),
        (1, "prewarm,plain:1,513,1,,"),
        (1, "prewarm,plain:1,256,0,,"),
        (1, "prewarm,plain:1,256,513,,"),
        (2, "prewarm,plain:1,256,1,,\nprewarm,plain:1,256,2,,"),
        (1, "program,,b,,,"),
        (1, "program,a,,,,"),
        (1, "program,a,b,c,,"),
        (2, "program,a,b,,,\nprogram,a,c,,,"),
    ]
    .iter()
    {
        assert_eq!(rt; fault(alloc, text.as_bytes()), Err(bad(*row)));
    }
}

#[test]
fn bad_retain_rows(rt: HostRuntime) {
    let alloc = rt.alloc();
    for (row, text) in [
        (1, "retain,0,,,,"),
        (1, "retain,3651,,,,"),
        (1, "retain,4294967297,,,,"),
        (1, "retain,,,,,"),
        (1, "retain,01,,,,"),
        (1, "retain,x,,,,"),
        (1, "Retain,1,,,,"),
        (1, "retain,1,x,,,"),
        (1, "retain,1,,x,,"),
        (1, "retain,1,,,x,"),
        (1, "retain,1,,,,x"),
        (1, "retain,1,,,"),
        (2, "retain,1,,,,\nretain,1,,,,"),
        (3, "retain,1,,,,\npool,512,,,,\nretain,2,,,,"),
    ]
    .iter()
    {
        assert_eq!(rt; fault(alloc, text.as_bytes()), Err(bad(*row)));
    }
}

#[test]
fn for_how_many_days_records_are_retained(rt: HostRuntime) -> Result<(), Fail> {
    let alloc = rt.alloc();
    for (text, days) in [
        ("", None),
        ("pool,512,,,,\n", None),
        ("retain,1,,,,", Some(1)),
        (
            "pool,512,,,,\nretain,3650,,,,\nprogram,a,b,,,\n",
            Some(3650),
        ),
    ]
    .iter()
    {
        let tenants = read(alloc, text.as_bytes())?;
        assert_eq!(rt; tenants.retain(), *days);
    }
    Ok(())
}

#[test]
fn bytes_that_are_no_text_are_a_bad_row(rt: HostRuntime) {
    let alloc = rt.alloc();
    assert_eq!(rt;
        fault(alloc, b"namespace,1,guest,,,\nkey,k1,\xff,guest,,\n"),
        Err(bad(2))
    );
    assert_eq!(rt;
        fault(alloc, b"namespace,1,guest,,,\nprogram,a,\xc3,,,\n"),
        Err(bad(2))
    );
    assert_eq!(rt;
        fault(alloc, b"namespace,1,guest,,,\nprogram,\xc3,a,,,\n"),
        Err(bad(2))
    );
    assert_eq!(rt;
        fault(alloc, b"namespace,1,guest,,,\ngrant,\xc3,guest,read,,\n"),
        Err(bad(2))
    );
}

#[test]
fn a_table_has_4194304_bytes_at_most(rt: HostRuntime) -> Result<(), Fail> {
    let alloc = rt.alloc();
    let Ok(most) = vec![in alloc; b'\n'; MOST_BYTES] else {
        return Err("no memory")?;
    };
    assert_eq!(rt; fault(alloc, &most), Ok(()));
    let Ok(more) = vec![in alloc; b'\n'; MOST_BYTES + 1] else {
        return Err("no memory")?;
    };
    assert_eq!(rt; fault(alloc, &more), Err(TenantRefusal::BadRow { row: 0 }));
    Ok(())
}

#[test]
fn a_fault_of_the_source_is_told(rt: HostRuntime) -> Result<(), Fail> {
    let alloc = rt.alloc();
    let mut source = MemorySource::new(copied(alloc, OFFICE.as_bytes())?, [1].to_vec(alloc)?);
    match Tenants::read(alloc, &mut source) {
        Err(refusal) => assert_eq!(rt; refusal, TenantRefusal::ReadFault),
        Ok(_) => assert!(rt; false),
    }
    assert_eq!(rt; source.faults(), 1);
    Ok(())
}

fn name(alloc: Global, text: &str) -> Result<Box<EntityName>, Fail> {
    match Box::new(alloc, read_name(alloc, text.as_bytes())?) {
        Ok(held) => Ok(held),
        Err(_) => Err("no memory")?,
    }
}

// Three namespaces, and two keys with grants.
const KEYS: &str =
    "namespace,1,guest,,,\nnamespace,2,other,,,\nnamespace,3,third,,,\nkey,k1,anna,guest,,\nkey,k2,bert,other,,\ngrant,k1,other,read,,\ngrant,k2,guest,invoke,,\ngrant,k2,guest,write,,\n";

#[test]
fn a_key_has_its_own_namespace_and_its_grants(rt: HostRuntime) -> Result<(), Fail> {
    let tenants = read(rt.alloc(), KEYS.as_bytes())?;
    for (key, namespace, rights) in [
        ("k1", "guest", (true, true, true)),
        ("k1", "other", (true, false, false)),
        ("k1", "third", (false, false, false)),
        ("k1", "nowhere", (false, false, false)),
        ("k1", "whisk.system", (false, false, false)),
        ("k1", "", (false, false, false)),
        ("k2", "guest", (false, true, true)),
        ("k2", "other", (true, true, true)),
    ]
    .iter()
    {
        let has = (
            allows(&tenants, key, namespace, Right::Read),
            allows(&tenants, key, namespace, Right::Write),
            allows(&tenants, key, namespace, Right::Invoke),
        );
        assert_eq!(rt; has, *rights);
    }
    Ok(())
}

#[test]
fn a_key_is_known_by_all_its_bytes(rt: HostRuntime) -> Result<(), Fail> {
    let tenants = read(rt.alloc(), KEYS.as_bytes())?;
    for key in [
        None,
        Some(""),
        Some("k"),
        Some("k3"),
        Some("k11"),
        Some("K1"),
    ]
    .iter()
    {
        assert_eq!(rt; tenants.who(*key), Err(TenantRefusal::UnknownKey));
    }
    assert_eq!(rt;
        (
            TenantRefusal::UnknownKey.number(),
            TenantRefusal::NotGranted.number()
        ),
        (23, 24)
    );
    Ok(())
}

fn allows(tenants: &Tenants, key: &str, namespace: &str, right: Right) -> bool {
    match tenants.who(Some(key)) {
        Ok(number) => tenants.may(number, namespace.as_bytes(), right).is_ok(),
        Err(_) => false,
    }
}

#[test]
fn what_the_table_says(rt: HostRuntime) -> Result<(), Fail> {
    let alloc = rt.alloc();
    let tenants = read(alloc, OFFICE.as_bytes())?;
    let key = tenants.who(Some("k1"))?;
    assert_eq!(rt; tenants.home(key).as_str(), "guest");
    assert_eq!(rt; tenants.subject(key).as_str(), "anna");
    let listed = NamespaceLimits {
        per_minute: 1,
        concurrent: 2,
        fires: 3,
    };
    let defaults = NamespaceLimits {
        per_minute: 120,
        concurrent: 100,
        fires: 60,
    };
    for (text, number, limits) in [
        ("guest", Some(1), defaults),
        ("other", Some(7), listed),
        ("whisk.system", Some(0), defaults),
        ("nowhere", None, defaults),
    ]
    .iter()
    {
        let namespace = name(alloc, text)?;
        assert_eq!(rt; tenants.number_of(&namespace), *number);
        assert_eq!(rt; tenants.limits_of(&namespace), *limits);
    }
    assert_eq!(rt;
        (
            tenants.pool(),
            tenants.wants().len(),
            tenants.programs().len()
        ),
        (2048, 0, 0)
    );
    Ok(())
}

#[test]
fn pools_prewarms_and_programs_stand_in_their_order(rt: HostRuntime) -> Result<(), Fail> {
    let alloc = rt.alloc();
    let tenants = read(
        alloc,
        b"program,z,/z,,,\nprewarm,program:1,256,2,,\npool,512,,,,\nprewarm,plain:1,128,1,,\nprogram,a,/a,,,\n",
    )?;
    assert_eq!(rt; tenants.pool(), 512);
    let wants = tenants.wants().as_slice();
    assert_eq!(rt; wants.len(), 2);
    assert_eq!(rt;
        (wants[0].kind, wants[0].memory, wants[0].count),
        (Kind::Program, 256, 2)
    );
    assert_eq!(rt;
        (wants[1].kind, wants[1].memory, wants[1].count),
        (Kind::Plain, 128, 1)
    );
    let programs = tenants.programs().as_slice();
    assert_eq!(rt; programs.len(), 2);
    assert_eq!(rt;
        (programs[0].0.as_str(), programs[0].1.as_str()),
        ("z", "/z")
    );
    assert_eq!(rt;
        (programs[1].0.as_str(), programs[1].1.as_str()),
        ("a", "/a")
    );
    Ok(())
}

// The names that a key is granted, as JSON.
fn granted(alloc: Global, tenants: &Tenants, key: &str) -> Result<Vec<u8>, Fail> {
    let names = tenants.granted(alloc, tenants.who(Some(key))?)?;
    Ok(write_val(alloc, &Val::List(names))?)
}

#[test]
fn the_granted_names_are_sorted(rt: HostRuntime) -> Result<(), Fail> {
    let alloc = rt.alloc();
    let tenants = read(
        alloc,
        b"namespace,1,guest,,,\nnamespace,2,zoo,,,\nnamespace,3,a,,,\nkey,k1,anna,guest,,\nkey,k2,bert,guest,,\ngrant,k2,zoo,read,,\ngrant,k2,a,invoke,,\ngrant,k2,guest,read,,\n",
    )?;
    let own = granted(alloc, &tenants, "k1")?;
    assert_eq!(rt; own.as_slice(), b"[\"guest\"]".as_slice());
    let all = granted(alloc, &tenants, "k2")?;
    assert_eq!(rt; all.as_slice(), b"[\"a\",\"guest\",\"zoo\"]".as_slice());
    Ok(())
}

#[test]
fn a_copy_is_the_same_table(rt: HostRuntime) -> Result<(), Fail> {
    let alloc = rt.alloc();
    let tenants = read(alloc, OFFICE.as_bytes())?;
    let Ok(copy) = Box::new(alloc, tenants.copy(alloc)?) else {
        return Err("no memory")?;
    };
    assert!(rt; tenants.same(&copy));
    let other = read(alloc, b"namespace,1,guest,,,\n")?;
    assert!(rt; !tenants.same(&other));
    Ok(())
}

// Appends 10,000 keys to the text, in an order that isn't that of their bytes.
fn with_keys(alloc: Global, text: &mut String) -> Result<(), AllocError> {
    for i in 0..10_000u64 {
        let number = (i * 7919) % 10_000;
        text.push_str("key,k")?;
        push_digits(text, number)?;
        text.push_str(",s")?;
        push_digits(text, number)?;
        text.push_str(",guest,,\n")?;
    }
    let _ = alloc;
    Ok(())
}

// The five digits of a number below 100,000.
fn push_digits(text: &mut String, number: u64) -> Result<(), AllocError> {
    for place in [10_000, 1000, 100, 10, 1].iter() {
        let digit = (number / *place % 10) as u8;
        text.push(char::from(b'0' + digit))?;
    }
    Ok(())
}

#[test]
fn ten_thousand_keys_are_found(rt: HostRuntime) -> Result<(), Fail> {
    let alloc = rt.alloc();
    let mut text = String::with_capacity(alloc, 300_000)?;
    text.push_str("namespace,1,guest,,,\n")?;
    with_keys(alloc, &mut text)?;
    let tenants = read(alloc, text.as_str().as_bytes())?;
    for (key, subject) in [
        ("k00000", "s00000"),
        ("k07919", "s07919"),
        ("k09999", "s09999"),
    ]
    .iter()
    {
        let number = tenants.who(Some(*key))?;
        assert_eq!(rt; tenants.subject(number).as_str(), *subject);
    }
    assert_eq!(rt; tenants.who(Some("k10000")), Err(TenantRefusal::UnknownKey));
    Ok(())
}
