//! Metrics in the text form of Prometheus.
ghost use Rattle.std.specs.Prelude.{◌≡◌, codes, string_bytes, IfOk};
ghost use Rattle.serve_page.specs.Samples.{counter_text, gauge_text, head_text, info_text, node_counter_text, node_gauge_text, node_sample_text, sample_text};

use std::alloc::{AllocError, Global};

/// Returns a metric of one number that goes up and down.
pub(crate) fn gauge(
    alloc: Global,
    name: &str,
    help: &str,
    number: u64,
) -> Result<String, AllocError>
    ensures { IfOk result (λ text. string_bytes text ≡ gauge_text name.now help.now number) }
{
    let head = head(alloc, name, help, "gauge")?;
    let sample = sample(alloc, name, number)?;
    format!(in alloc; "{head}{sample}")
}

/// Returns a metric of one number that goes up alone.
pub(crate) fn counter(
    alloc: Global,
    name: &str,
    help: &str,
    number: u64,
) -> Result<String, AllocError>
    ensures { IfOk result (λ text. string_bytes text ≡ counter_text name.now help.now number) }
{
    let head = head(alloc, name, help, "counter")?;
    let sample = sample(alloc, name, number)?;
    format!(in alloc; "{head}{sample}")
}

/// Returns a metric of a number of each node, the primary's under `local` and the secondary's under `remote`.
pub(crate) fn node_gauge(
    alloc: Global,
    name: &str,
    help: &str,
    local: u64,
    remote: u64,
) -> Result<String, AllocError>
    ensures { IfOk result (λ text. string_bytes text ≡ node_gauge_text name.now help.now local remote) }
{
    let head = head(alloc, name, help, "gauge")?;
    let local = node_sample(alloc, name, "local", local)?;
    let remote = node_sample(alloc, name, "remote", remote)?;
    format!(in alloc; "{head}{local}{remote}")
}

/// Returns a metric of a number of each node that goes up alone, the primary's under `local` and the secondary's under `remote`.
pub(crate) fn node_counter(
    alloc: Global,
    name: &str,
    help: &str,
    local: u64,
    remote: u64,
) -> Result<String, AllocError>
    ensures { IfOk result (λ text. string_bytes text ≡ node_counter_text name.now help.now local remote) }
{
    let head = head(alloc, name, help, "counter")?;
    let local = node_sample(alloc, name, "local", local)?;
    let remote = node_sample(alloc, name, "remote", remote)?;
    format!(in alloc; "{head}{local}{remote}")
}

/// Returns a metric that has a text as its label. The text has no quotation mark and no backslash.
pub(crate) fn info(
    alloc: Global,
    name: &str,
    help: &str,
    label: &str,
    text: &str,
) -> Result<String, AllocError>
    ensures { IfOk result (λ shown. string_bytes shown ≡ info_text name.now help.now label.now text.now) }
{
    let head = head(alloc, name, help, "gauge")?;
    format!(in alloc; "{head}drbdpair_{name}{{{label}=\"{text}\"}} 1\n")
}

/// Returns what a metric is, and its kind.
pub(crate) fn head(alloc: Global, name: &str, help: &str, kind: &str) -> Result<String, AllocError>
    ensures { IfOk result (λ text. string_bytes text ≡ head_text name.now help.now kind.now) }
{
    format!(in alloc; "# HELP drbdpair_{name} {help}\n# TYPE drbdpair_{name} {kind}\n")
}

// Returns a sample without a label.
fn sample(alloc: Global, name: &str, number: u64) -> Result<String, AllocError>
    ensures { IfOk result (λ text. string_bytes text ≡ sample_text name.now number) }
{
    format!(in alloc; "drbdpair_{name} {number}\n")
}

// Returns a sample of one node.
fn node_sample(alloc: Global, name: &str, node: &str, number: u64) -> Result<String, AllocError>
    ensures { IfOk result (λ text. string_bytes text ≡ node_sample_text name.now node.now number) }
{
    format!(in alloc; "drbdpair_{name}{{node=\"{node}\"}} {number}\n")
}
