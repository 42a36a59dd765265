//! Configurations that texts are read as, and the texts of faults.
use farm_config::{ConfigFault, read_config};
use farm_core::{Config, Name};
use farm_replay::ReplayFault;
use std::alloc::Global;
use std::process::Abort;
use std::str;
use std::test::Fail;

fn name_text(name: &Name) -> &str {
    str::from_utf8(name.as_bytes()).unwrap_or("no text")
}

fn shown(alloc: Global, config: &Config) -> Result<String, Fail> {
    let (workers, slice) = (config.workers(), config.slice());
    let mut line = format!(in alloc; "workers {workers} slice {slice}")?;
    for tenant in config.tenants() {
        let name = name_text(&tenant.name);
        let (quanta, jobs, entries) = (tenant.quanta, tenant.jobs, tenant.entries);
        let terms = format!(in alloc; "; {name} {quanta} {jobs} {entries}")?;
        line.push_str(&terms)?;
    }
    Ok(line)
}

fn reads(rt: &impl Abort, alloc: Global, text: &str, expected: &str) -> Result<(), Fail> {
    let config = read_config(alloc, text.as_bytes())?;
    assert_eq!(rt; shown(alloc, &config)?.as_str(), expected);
    Ok(())
}

#[test]
fn texts(rt: HostRuntime) -> Result<(), Fail> {
    let rows = [
        (
            "{\"tenants\":[{\"name\":\"a\",\"quanta\":100,\"jobs\":2,\"entries\":100},\n{\"name\":\"b\",\"quanta\":10,\"jobs\":2,\"entries\":100}],\"workers\":2,\"slice\":2}\n",
            "workers 2 slice 2; a 100 2 100; b 10 2 100",
        ),
        (
            "{\"slice\":7,\"more\":[{}],\"tenants\":[{\"jobs\":1,\"colour\":1,\"name\":\"\\u0061\",\"quanta\":1,\"entries\":1,\"quanta\":3}],\"slice\":9}",
            "workers 2 slice 9; a 3 1 1",
        ),
        (
            "{\"tenants\":[{\"name\":\"a\",\"quanta\":0,\"jobs\":1,\"entries\":1}],\"workers\":1,\"slice\":1}",
            "workers 1 slice 1; a 0 1 1",
        ),
        (
            "{\"tenants\":[{\"name\":\"a\",\"quanta\":1000000000000,\"jobs\":1000,\"entries\":1000000}],\"workers\":16,\"slice\":1000000}",
            "workers 16 slice 1000000; a 1000000000000 1000 1000000",
        ),
        (
            "{\"tenants\":[{\"name\":\"a\",\"quanta\":5,\"jobs\":1,\"entries\":1}]}",
            "workers 2 slice 1000; a 5 1 1",
        ),
        (
            "{\"tenants\":[{\"name\":\"a\",\"quanta\":1,\"jobs\":1,\"entries\":1},{\"name\":\"abcdefghijklmnopqrstuvwxyz_-0123\",\"quanta\":1,\"jobs\":1,\"entries\":1}]}",
            "workers 2 slice 1000; a 1 1 1; abcdefghijklmnopqrstuvwxyz_-0123 1 1 1",
        ),
    ];
    for (text, expected) in rows {
        reads(&rt, rt.alloc(), text, expected)?;
    }
    Ok(())
}

// Only these faults come of no file.
#[test]
fn texts_of_want_of_memory(rt: HostRuntime) -> Result<(), Fail> {
    assert_eq!(rt;
        ReplayFault::NoMemory.to_string(rt.alloc())?.as_str(),
        "NoMemory"
    );
    assert_eq!(rt;
        ConfigFault::NoMemory.to_string(rt.alloc())?.as_str(),
        "NoMemory"
    );
    Ok(())
}
