//! Prints tables of the program `life` as JSON: the explanations of refusals by name, the refusals over HTTP, and the
//! routes. They are the constants that the program itself uses. The output is stored in this crate's file `stdout`,
//! which tools/make-tables reads.
#![tactic(auto)]

use life_desk::REFUSALS;
use life_pages::{MESSAGE_REFUSALS, routes};
use life_words::{explanation, refusal_names};
use serde_json::to_string;
use std::io;

/// The end of an item's line: JSON has no comma after the last item.
fn comma(is_last: bool) -> &'static str {
    if is_last { "" } else { "," }
}

/// Prints each name with its explanation as a JSON string. An explanation may have several lines.
fn print_explanations(rt: &HostRuntime) -> anyhow::Result<()> {
    let names = refusal_names(rt.alloc())?;
    for (at, name) in names.iter().enumerate() {
        let text = to_string(rt.alloc(), &explanation(name).unwrap_or(""))?;
        let end = comma(at + 1 == names.len());
        println!(rt; "    \"{name}\": {text}{end}")?;
    }
    Ok(())
}

/// Prints one refusal. Names need no escapes in JSON.
fn print_refusal(
    rt: &HostRuntime,
    number: u8,
    name: &str,
    status: u16,
    is_last: bool,
) -> io::Result<()> {
    let end = comma(is_last);
    println!(rt; "    {{ \"number\": {number}, \"name\": \"{name}\", \"status\": {status} }}{end}")
}

/// Prints the refusals over HTTP in the order of their numbers: first of requests, then of messages.
fn print_refusals(rt: &HostRuntime) -> io::Result<()> {
    for refusal in &REFUSALS {
        print_refusal(
            rt,
            refusal.number(),
            refusal.name(),
            refusal.status(),
            false,
        )?;
    }
    for (at, refusal) in MESSAGE_REFUSALS.iter().enumerate() {
        let is_last = at + 1 == MESSAGE_REFUSALS.len();
        print_refusal(
            rt,
            refusal.number(),
            refusal.name(),
            refusal.status(),
            is_last,
        )?;
    }
    Ok(())
}

/// Prints the method and the path of each route, in the order of docs/API.md.
fn print_routes(rt: &HostRuntime) -> io::Result<()> {
    let routes = routes();
    for (at, (method, path, _)) in routes.iter().enumerate() {
        let method = method.name();
        let end = comma(at + 1 == routes.len());
        println!(rt; "    {{ \"method\": \"{method}\", \"path\": \"{path}\" }}{end}")?;
    }
    Ok(())
}

fn main(rt: HostRuntime) -> anyhow::Result<()> {
    println!(rt; "{{\n  \"explanations\": {{")?;
    print_explanations(&rt)?;
    println!(rt; "  }},\n  \"refusals\": [")?;
    print_refusals(&rt)?;
    println!(rt; "  ],\n  \"routes\": [")?;
    print_routes(&rt)?;
    println!(rt; "  ]\n}}")?;
    Ok(())
}
