//! Files of rules, and what their rules decide of lines.

use crate::formats::notation::{bytes_of, text_of, write_bytes};
use crate::tools::{halves, listed};
use line_rules::{Decision, LineRules, ListedPatterns, Named, Patterns, RegexPatterns};
use std::alloc::{AllocError, Global};
use std::fmt::Write;

/// The type of the event that the line is.
fn type_of<'t>(rules: &'t LineRules, line: &'t str) -> &'t str {
    match rules.decide(line) {
        Ok(
            Decision::Event {
                name: Named::Fixed(rule),
                ..
            },
        ) => rules.fixed(rule),
        Ok(
            Decision::Event {
                name: Named::Part(from, to),
                ..
            },
        ) => line.get(from..to).unwrap_or(""),
        _ => "",
    }
}

/// Reports what rules decide of a line on their own.
fn write_once(rules: &LineRules, line: &str, out: &mut String) -> Result<(), AllocError> {
    write!(out, "{:?} ", rules.decide(line))
        .and(write_bytes(out, type_of(rules, line).as_bytes()))
        .and(out.push('\n'))
}

/// The same, and if it differs, what they decide with what is kept from line to line.
fn write_decision(rules: &LineRules, line: &str, out: &mut String) -> Result<(), AllocError> {
    let mut matchers = rules.matchers()?;
    let first = matchers.decide(line);
    let again = matchers.decide(line);
    drop(matchers);
    let once = rules.decide(line);
    let head = write_once(rules, line, out);
    if first != once || again != once {
        return head.and(writeln!(out, "but {first:?} and {again:?} by what is kept"));
    }
    head
}

/// The same for a line of a case.
fn write_line(
    alloc: Global,
    rules: &LineRules,
    line: &str,
    out: &mut String,
) -> Result<(), AllocError> {
    let line = text_of(alloc, line)?;
    write_decision(rules, &line, out)
}

/// Reports what rules decide of lines.
fn write_decisions(
    alloc: Global,
    rules: &LineRules,
    lines: &str,
    out: &mut String,
) -> Result<(), AllocError> {
    out.push_str("read\n")?;
    if lines.is_empty() {
        return Ok(());
    }
    for line in lines.split('\n') {
        write_line(alloc, rules, line, out)?;
    }
    Ok(())
}

/// Reads a rules file with these patterns.
fn read<P: Patterns>(
    alloc: Global,
    steps: &str,
    patterns: &mut P,
    out: &mut String,
) -> Result<(), AllocError> {
    let (file, lines) = halves(steps, '\n');
    let file = bytes_of(alloc, file)?;
    let rules = LineRules::read(alloc, &file, patterns);
    drop(file);
    let end = match &rules {
        Ok(rules) => write_decisions(alloc, rules, lines, out),
        Err(fault) => writeln!(out, "{fault:?}"),
    };
    drop(rules);
    end
}

/// Reads the rules file of the first step, and decides the lines of the others. The argument of the heading is the number of a
/// build that is refused.
pub fn run(alloc: Global, words: &str, steps: &str, out: &mut String) -> Result<(), AllocError> {
    let patterns = RegexPatterns::new(alloc);
    let Ok(refused) = words.parse::<u64>() else {
        let mut patterns = patterns;
        return read(alloc, steps, &mut patterns, out);
    };
    let mut patterns = ListedPatterns::new(patterns, listed(alloc, refused)?);
    read(alloc, steps, &mut patterns, out)
}
