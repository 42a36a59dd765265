//! The lines that tell what a configuration means.
ghost use Rattle.std.specs.Prelude.{◌≡◌, ◌++◌, ◌+◌, ◌*◌, ◌<◌, length, codes, decimal, IfOk, IsTrue, string_bytes};
ghost use Rattle.farm_core.specs.Name.{is_name};
ghost use Rattle.farm_core.specs.World.{purses_in};
ghost use Rattle.config_cli.specs.ConfigText.{concat_below, line_at, entries_below, entries_of_job, name_or_dash, purse_name, member_word, purse_line, tenant_line, first_line, last_line, config_text};

use farm_core::{Config, Name};
use std::alloc::{AllocError, Global};
use std::str;

/// The kilobytes that the journal keeps of a submit of 202 activities, each in three modes.
const PROJECT: u128 = 104;

#[tactic(auto, using(crate::proofs::NameLemmas::name_is_utf8))]
fn text_of(name: &Name) -> &str
    ensures { result.now ≡ name.now }
{
    match str::from_utf8(name.as_bytes()) {
        Ok(text) => text,
        Err(_) => unreachable!(),
    }
}

fn put_first(text: &mut String, config: &Config) -> Result<(), AllocError>
    ensures { IfOk result (λ _. string_bytes text.new ≡ string_bytes text.old ++ first_line config.now) }
{
    let (tenants, purses) = (config.tenants().len(), config.purses());
    let (workers, slice) = (config.workers(), config.slice());
    write!(
        text,
        "tenants {tenants} purses {purses} workers {workers} slice {slice}\n"
    )?;
    Ok(())
}

fn label_of(purse: &Option<Name>) -> &str
    ensures { result.now ≡ name_or_dash purse.now }
{
    match purse {
        Some(name) => text_of(name),
        None => "-",
    }
}

fn purse_name(config: &Config, purse: u32) -> &str
    ensures { result.now ≡ purse_name config.now purse (length config.now.tenants) }
{
    let mut name = "-";
    for (tenant, line) in config.tenants().iter().enumerate() {
        if config.purse_of(tenant as u32) == purse {
            name = label_of(&line.purse);
        }
    }
    name
}

fn put_members(text: &mut String, config: &Config, purse: u32) -> Result<(), AllocError>
    ensures { IfOk result (λ _. string_bytes text.new
        ≡ string_bytes text.old ++ concat_below (member_word config.now purse) (length config.now.tenants)) }
{
    for (tenant, line) in config.tenants().iter().enumerate() {
        if config.purse_of(tenant as u32) == purse {
            let name = text_of(&line.name);
            write!(text, " {name}")?;
        }
    }
    Ok(())
}

fn put_purse(text: &mut String, config: &Config, purse: u32) -> Result<(), AllocError>
    requires { purse < purses_in config.now }
    ensures { IfOk result (λ _. string_bytes text.new ≡ string_bytes text.old ++ purse_line config.now purse) }
{
    let (name, granted) = (purse_name(config, purse), config.granted(purse));
    write!(text, "purse {name} quanta {granted} tenants")?;
    put_members(text, config, purse)?;
    text.push_str("\n")
}

/// The entries of one job that runs all quanta of its purse, and of a request for its result.
fn entries_of_job(config: &Config, tenant: u32) -> u128
    requires { tenant < length config.now.tenants }
    ensures { result ≡ entries_of_job config.now tenant }
{
    let granted = config.granted(config.purse_of(tenant));
    u128::from(granted / config.slice().max(1)) * 2 + 4
}

fn put_tenant(text: &mut String, config: &Config, tenant: u32) -> Result<(), AllocError>
    requires { tenant < length config.now.tenants }
    ensures { IfOk result (λ _. string_bytes text.new ≡ string_bytes text.old ++ tenant_line config.now tenant) }
{
    let line = &config.tenants()[tenant as usize];
    let (name, jobs, entries) = (text_of(&line.name), line.jobs, line.entries);
    let needed = entries_of_job(config, tenant);
    write!(
        text,
        "tenant {name} jobs {jobs} entries {entries} needs {needed}\n"
    )?;
    Ok(())
}

fn entries_of(config: &Config) -> u128
    ensures all { result ≡ entries_below config.now (length config.now.tenants) }
    ensures few { result < 2000000000000000000000 }
{
    let mut entries = 0u128;
    for line in config.tenants() {
        entries += u128::from(line.entries);
    }
    entries
}

fn put_last(text: &mut String, config: &Config) -> Result<(), AllocError>
    ensures { IfOk result (λ _. string_bytes text.new ≡ string_bytes text.old ++ last_line config.now) }
{
    let entries = entries_of(config);
    let kilobytes = PROJECT * entries;
    write!(text, "entries {entries} kilobytes {kilobytes}\n")?;
    Ok(())
}

fn put_purses(text: &mut String, config: &Config) -> Result<(), AllocError>
    ensures { IfOk result (λ _. string_bytes text.new
        ≡ string_bytes text.old ++ concat_below (purse_line config.now) (purses_in config.now)) }
{
    for purse in 0..config.purses() {
        put_purse(text, config, purse)?;
    }
    Ok(())
}

fn put_tenants(text: &mut String, config: &Config) -> Result<(), AllocError>
    ensures { IfOk result (λ _. string_bytes text.new
        ≡ string_bytes text.old ++ concat_below (tenant_line config.now) (length config.now.tenants)) }
{
    for tenant in 0..config.tenants().len() as u32 {
        put_tenant(text, config, tenant)?;
    }
    Ok(())
}

/// What a configuration means: its numbers, its purses with their quanta and tenants, its tenants
/// with their limits and the entries that one job needs, and what all entries can keep.
pub fn config_text(alloc: Global, config: &Config) -> Result<String, AllocError>
    ensures { IfOk result (λ text. string_bytes text ≡ config_text config.now) }
{
    let mut text = String::new(alloc);
    put_first(&mut text, config)?;
    put_purses(&mut text, config)?;
    put_tenants(&mut text, config)?;
    put_last(&mut text, config)?;
    Ok(text)
}
