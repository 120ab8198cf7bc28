//! What a call answers on a case.

use crate::case::TestCase;
use crate::writer::Writer;
use anyhow::{Result, anyhow};
use lf_base::{Memory, Refusal};
use serde_json::Value;
use std::alloc::Global;

/// The answer of a call, as the case's keys hold it.
#[derive(Drop)]
pub struct Answer {
    /// What `expect` is to be, as JSON.
    pub expect: Writer,
    /// What `spans` is to be, as JSON; empty, of a call that doesn't tell the places apart from the rest.
    pub spans: Writer,
}

impl Answer {
    /// An answer of which nothing is written.
    pub fn new(alloc: Global) -> Answer {
        Answer {
            expect: Writer::new(alloc),
            spans: Writer::new(alloc),
        }
    }

    /// What is wrong with the answer to a case, if anything.
    pub fn wrong(&self, alloc: Global, case: &TestCase) -> Result<Option<String>> {
        let found = Value::from_str(alloc, self.expect.text()?)?;
        let expect = case.expect();
        if found == *expect {
            return self.wrong_spans(alloc, case);
        }
        let name = case.name();
        Ok(Some(format!(in alloc; "{name}: {found} in place of {expect}")?))
    }

    /// What is wrong with the spans, if anything. A case without `spans` lets them be any.
    fn wrong_spans(&self, alloc: Global, case: &TestCase) -> Result<Option<String>> {
        let Some(expect) = case.spans() else {
            return Ok(None);
        };
        let found = match self.spans.text()? {
            "" => "no spans",
            spans => spans,
        };
        if found == expect {
            return Ok(None);
        }
        let name = case.name();
        Ok(Some(format!(in alloc; "{name}: {found} in place of {expect}")?))
    }
}

/// A refusal, where it is no answer that is looked for.
pub fn refused(refusal: Refusal) -> anyhow::Error {
    match refusal {
        Refusal::At { kind, span } => anyhow!("{} at {}", kind.name(), span.start),
        Refusal::Memory => no_memory(Memory),
    }
}

/// Want of memory.
pub fn no_memory(_: Memory) -> anyhow::Error {
    anyhow!("out of memory")
}
