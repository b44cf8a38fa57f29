//! The parts of the page for people that are the same for every report.

/// What stands before the title.
pub(crate) const HEAD: &str = r#"<!DOCTYPE html>
<html lang="en">
<head>
<meta charset="utf-8">
<meta name="viewport" content="width=device-width, initial-scale=1">
<meta name="color-scheme" content="light dark">
"#;

/// What stands between the title and the heading: all styles.
pub(crate) const STYLES: &str = r#"<link rel="icon" href="data:,">
<style>
:root { --paper: #ffffff; --ink: #1b1f24; --soft: #57606a; --line: #d8dee4; --good: #1a7f37; --busy: #8a5a00; --bad: #b42318; --draw: #0b62c4; }
@media (prefers-color-scheme: dark) {
  :root { --paper: #14171a; --ink: #e6e9ec; --soft: #9aa5b1; --line: #363d44; --good: #4ac26b; --busy: #d9a72c; --bad: #ff7b72; --draw: #6cb2ff; }
}
* { box-sizing: border-box; }
[hidden] { display: none !important; }
body { margin: 0 auto; padding: 1rem; max-width: 64rem; background: var(--paper); color: var(--ink); font: 1rem/1.5 system-ui, sans-serif; }
h1 { margin: 0; font-size: 1.4rem; }
h2 { margin: 1.6rem 0 .4rem; font-size: 1.1rem; }
p { margin: .4rem 0; }
a { color: var(--draw); }
footer { margin-top: 1.6rem; color: var(--soft); font-size: .9rem; }
.now { padding-left: .7rem; border-left: .3rem solid; font-size: 1.1rem; }
.good { border-color: var(--good); }
.busy { border-color: var(--busy); }
.bad { border-color: var(--bad); }
.stale section { opacity: .5; }
small { font-size: .8rem; }
.nodes { display: grid; grid-template-columns: repeat(auto-fit, minmax(20rem, 1fr)); gap: 0 2rem; }
table { width: 100%; border-collapse: collapse; }
th, td { padding: .35rem .6rem .35rem 0; border-bottom: 1px solid var(--line); text-align: left; vertical-align: top; font-weight: normal; }
th { color: var(--soft); white-space: nowrap; }
td.value { font-weight: 600; font-variant-numeric: tabular-nums; white-space: nowrap; }
td.meaning { color: var(--soft); font-size: .9rem; }
progress { width: 100%; height: 1rem; accent-color: var(--draw); }
.chart { display: grid; grid-template-columns: auto 1fr; gap: 0 .5rem; color: var(--soft); font-size: .8rem; }
.scale { display: flex; flex-direction: column; justify-content: space-between; text-align: right; line-height: 1; }
.ends { grid-column: 2; display: flex; justify-content: space-between; }
svg { display: block; width: 100%; height: 6rem; border: 1px solid var(--line); border-width: 0 0 1px 1px; }
#cells { display: grid; grid-template-columns: repeat(auto-fill, minmax(.8rem, 1fr)); gap: 2px; margin: .4rem 0; }
#cells i { height: .8rem; }
.legend i { display: inline-block; width: .8rem; height: .8rem; }
.clean { background: var(--line); }
.active { background: var(--draw); }
.marked { background: var(--bad); }
line { stroke: var(--line); stroke-dasharray: 4 4; vector-effect: non-scaling-stroke; }
polyline { fill: none; stroke: var(--draw); stroke-width: 1.5; vector-effect: non-scaling-stroke; }
@media (max-width: 30rem) {
  .nodes { grid-template-columns: 1fr; }
  tr { display: grid; grid-template-columns: 1fr auto; border-bottom: 1px solid var(--line); padding: .3rem 0; }
  th, td { border: 0; padding: 0; white-space: normal; }
  td.meaning { grid-column: 1 / -1; }
}
</style>
</head>
<body>
"#;

/// What stands behind the words: the lines of writes and of their latency, which the script draws, and the script.
pub(crate) const TAIL: &str = r#"<section id="writes" hidden>
<h2>Writes in a second</h2>
<div class="chart">
<div class="scale" aria-hidden="true"><span id="writes-top"></span><span id="writes-half"></span><span>0</span></div>
<svg viewBox="0 0 180 40" preserveAspectRatio="none" role="img" aria-labelledby="writes-told"><line x1="0" x2="180" y1="20" y2="20"></line><polyline id="writes-line" points=""></polyline></svg>
<div class="ends" aria-hidden="true"><span>3 minutes ago</span><span>now</span></div>
</div>
<p id="writes-told"></p>
</section>
<section id="latency" hidden>
<h2>Milliseconds that a write takes</h2>
<div class="chart">
<div class="scale" aria-hidden="true"><span id="latency-top"></span><span id="latency-half"></span><span>0</span></div>
<svg viewBox="0 0 180 40" preserveAspectRatio="none" role="img" aria-labelledby="latency-told"><line x1="0" x2="180" y1="20" y2="20"></line><polyline id="latency-line" points=""></polyline></svg>
<div class="ends" aria-hidden="true"><span>3 minutes ago</span><span>now</span></div>
</div>
<p id="latency-told"></p>
</section>
</main>
<footer>
<p>The same for programs: <a href="/status.json">/status.json</a>, <a href="/map.json">/map.json</a>, <a href="/metrics">/metrics</a>. The words are those of DRBD 8.4.</p>
<noscript><p>Load this page again for the next moment: without a script it does not follow the server.</p></noscript>
</footer>
<script>
(() => {
  "use strict";
  const SECONDS = 180;
  const title = document.title;
  const series = { writes: [], latency: [] };
  let last = null;
  const all = (selector) => document.querySelectorAll(selector);
  const named = (name) => document.getElementById(name);
  const found = (report, key) => key.split(".").reduce((part, name) => (part === null || part === undefined ? part : part[name]), report);
  const shown = (value) => (value === true ? "Yes" : value === false ? "No" : String(value));
  const state = (report) => {
    if (report.peer_sync_failed) return "left-out";
    if (report.primary.metadata_failed || report.secondary.metadata_failed) return "metadata-failed";
    if (report.primary.connection === "SyncSource") return "copying";
    if (report.primary.connection === "WFReportParams") return "greeting";
    if (report.primary.connection !== "Connected") return "alone";
    return report.primary.out_of_sync_kib === 0 ? "alike" : "marked";
  };
  const titles = { alike: "alike", marked: "to be copied", copying: "copying", greeting: "connecting", alone: "link down", "left-out": "peer left out", "metadata-failed": "metadata failed" };
  const tell = (report) => {
    document.title = `${titles[state(report)]} - ${title}`;
    document.body.classList.remove("stale");
    named("doubted").hidden = !report.peer_sync_failed;
    for (const cell of all("[data-key]")) {
      const value = found(report, cell.dataset.key);
      cell.textContent = value === null || value === undefined ? "not known yet" : shown(value);
    }
    for (const meaning of all("[data-of]")) meaning.hidden = shown(found(report, meaning.dataset.of)) !== meaning.dataset.word;
    for (const sentence of all("[data-state]")) sentence.hidden = sentence.dataset.state !== state(report);
    named("resync").hidden = report.resync === null;
    if (report.resync !== null) named("progress").value = report.resync.percent;
  };
  const round = (value) => Number(value.toPrecision(3));
  const above = (most) => {
    if (most <= 0) return 1;
    const step = 10 ** Math.floor(Math.log10(most));
    return round([1, 2, 5, 10].map((part) => part * step).find((top) => top >= most) ?? most);
  };
  const draw = (name, value) => {
    const values = series[name];
    values.push(value);
    if (values.length > SECONDS) values.shift();
    if (values.length < 2) return;
    const most = Math.max(...values);
    const top = above(most);
    const height = (part) => (40 - (40 * part) / top).toFixed(1);
    const first = SECONDS - values.length;
    named(`${name}-line`).setAttribute("points", values.map((part, index) => `${first + index},${height(part)}`).join(" "));
    named(`${name}-top`).textContent = top;
    named(`${name}-half`).textContent = round(top / 2);
    named(`${name}-told`).textContent = `${value} now, ${most} at most in the last ${values.length} seconds`;
    named(name).hidden = false;
  };
  const grown = (now, before) => (now < before ? now : now - before);
  const note = (report) => {
    const now = { moment: performance.now(), accepted: report.primary.accepted_writes, ...report.requests.write };
    if (last !== null && now.moment > last.moment) {
      draw("writes", Math.round((1000 * grown(now.accepted, last.accepted)) / (now.moment - last.moment)));
      const count = grown(now.count, last.count);
      const milliseconds = grown(now.microseconds, last.microseconds) / 1000;
      draw("latency", count === 0 ? 0 : Number((milliseconds / count).toFixed(3)));
    }
    last = now;
  };
  const silent = (why) => {
    const line = named("silent");
    if (line.hidden) line.textContent = `${why} since ${new Date().toLocaleTimeString()}. What stands here is what it told last.`;
    line.hidden = false;
    document.title = `no answer - ${title}`;
    document.body.classList.add("stale");
    for (const sentence of all("[data-state]")) sentence.hidden = true;
  };
  const follow = async () => {
    try {
      const answer = await fetch("/status.json", { cache: "no-store", signal: AbortSignal.timeout(5000) });
      if (answer.ok) {
        const report = await answer.json();
        tell(report);
        note(report);
        named("silent").hidden = true;
      } else {
        silent("The server gives no status");
      }
    } catch {
      silent("The server has not answered");
    }
    setTimeout(follow, 1000);
  };
  const words = { ".": "clean", a: "active", m: "marked" };
  const survey = (map) => {
    named("map-told").textContent = `${map.extents} extents of 4 MiB: ${map.active} active, ${map.marked} with marked blocks. Extents in a cell: ${map.extents_in_cell}.`;
    named("cells").querySelectorAll("i").forEach((cell, index) => {
      cell.className = words[map.cells[index]];
      cell.title = `extent ${index * map.extents_in_cell}: ${cell.className}`;
    });
  };
  const look = async () => {
    try {
      const answer = await fetch("/map.json", { cache: "no-store", signal: AbortSignal.timeout(5000) });
      if (answer.ok) survey(await answer.json());
    } catch {
      // What does not answer is told by the status.
    }
    setTimeout(look, 5000);
  };
  follow();
  if (named("cells") !== null) look();
})();
</script>
</body>
</html>
"#;
