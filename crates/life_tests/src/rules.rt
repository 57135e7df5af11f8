//! Reading rules outside of files, and the messages of their faults.
use life_core::{Rule, RuleFault, law_of_life, laws_of_rule_texts};
use std::alloc::Global;

/// Texts of rules, and for each the canonical text of the rule, or the message of its fault.
const RULES: [(&str, &str); 3] = [
    ("\tb 3 3\r S", "B3/S"),
    ("B3/S23\n", "not a rule"),
    ("B03/S23", "a rule with births from nothing"),
];

/// Whether this is the canonical text of the rule.
fn has_text(alloc: Global, rule: &Rule, expected: &str) -> bool {
    match rule.text(alloc) {
        Ok(text) => text.as_str() == expected,
        Err(_) => false,
    }
}

/// Whether this is the message of the fault.
fn has_message(alloc: Global, fault: RuleFault, expected: &str) -> bool {
    match format!(in alloc; "{fault}") {
        Ok(message) => message.as_str() == expected,
        Err(_) => false,
    }
}

/// Whether the text is read as the rule with this canonical text, or refused with this message.
fn is_read_as(alloc: Global, text: &str, expected: &str) -> bool {
    match Rule::read(text.as_bytes()) {
        Ok(rule) => has_text(alloc, &rule, expected),
        Err(fault) => has_message(alloc, fault, expected),
    }
}

#[test]
fn rules_are_read(rt: HostRuntime) {
    laws_of_rule_texts();
    for (text, expected) in RULES {
        assert!(rt; is_read_as(rt.alloc(), text, expected), "{text}");
    }
    assert!(rt; has_text(rt.alloc(), &Rule::LIFE, "B3/S23"));
    assert!(rt; law_of_life() == Rule::LIFE);
    assert!(rt; RuleFault::BadRule.number() == 1 && RuleFault::BirthZero.number() == 2);
}
