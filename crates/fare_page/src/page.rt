//! The page that shows the hub.

const PAGE: &str = r##"<!doctype html>
<html lang="en">
<head>
<meta charset="utf-8">
<meta name="viewport" content="width=device-width, initial-scale=1">
<title>fare hub</title>
<link rel="icon" href="data:,">
<style>
:root {
  color-scheme: light dark;
  --back: #f5f6f8; --card: #fff; --ink: #1b2430; --soft: #5d6b7c; --line: #e2e6eb;
  --main: #0b6bcb; --good: #1a7f4b; --wait: #a85d00; --waitback: #fff3df; --bad: #b3261e; --track: #e8ecf1;
}
@media (prefers-color-scheme: dark) {
  :root {
    --back: #12161c; --card: #1a2028; --ink: #e6ebf1; --soft: #93a1b2; --line: #2b333e;
    --main: #5aa9f5; --good: #5bc98f; --wait: #f0b35a; --waitback: #3a2d16; --bad: #f2887f; --track: #2b333e;
  }
}
* { box-sizing: border-box; }
body { margin: 0; background: var(--back); color: var(--ink); font: 15px/1.5 system-ui, sans-serif; }
main { max-width: 62rem; margin: 0 auto; padding: 1.5rem 1.25rem 3rem; }
header { display: flex; align-items: baseline; gap: .75rem; flex-wrap: wrap; margin-bottom: 1.25rem; }
h1 { font-size: 1.35rem; margin: 0; letter-spacing: -.01em; }
h2 { font-size: 1rem; margin: 0 0 .6rem; }
.state { color: var(--soft); font-size: .875rem; }
.state::before { content: ""; display: inline-block; width: .6em; height: .6em; border-radius: 50%; background: var(--good); margin-right: .45em; }
.state.lost { color: var(--bad); }
.state.lost::before { background: var(--bad); }
.tiles { display: grid; grid-template-columns: repeat(auto-fit, minmax(9.5rem, 1fr)); gap: .75rem; margin-bottom: .75rem; }
.card { background: var(--card); border: 1px solid var(--line); border-radius: 10px; padding: 1rem 1.15rem; margin-bottom: .75rem; }
.tiles .card { margin: 0; }
.tiles b { display: block; font-size: 1.6rem; font-weight: 600; line-height: 1.2; font-variant-numeric: tabular-nums; }
.tiles span { color: var(--soft); font-size: .85rem; }
.tiles .some b { color: var(--wait); }
table { width: 100%; border-collapse: collapse; font-variant-numeric: tabular-nums; }
th { text-align: left; font-weight: 500; color: var(--soft); font-size: .85rem; padding: .3rem .5rem; border-bottom: 1px solid var(--line); }
td { padding: .45rem .5rem; border-bottom: 1px solid var(--line); }
tr:last-child td { border-bottom: 0; }
th.n, td.n { text-align: right; }
th:first-child, td:first-child { padding-left: 0; }
th:last-child, td:last-child { padding-right: 0; }
.chip { display: inline-block; border-radius: 99px; padding: 0 .6em; background: var(--waitback); color: var(--wait); }
.chip.gone { background: var(--track); color: var(--ink); }
.none { color: var(--soft); }
.bar { height: 6px; border-radius: 3px; background: var(--track); min-width: 5rem; overflow: hidden; }
.bar i { display: block; height: 100%; background: var(--good); }
.bar.some { background: var(--wait); }
.forms { display: grid; grid-template-columns: 1fr 1fr; gap: .75rem; margin-bottom: .75rem; }
.forms .card { margin: 0; }
.forms .card:first-child { grid-column: 1 / -1; }
@media (max-width: 44rem) {
  main { padding: 1rem .75rem 2rem; }
  .forms { grid-template-columns: 1fr; }
  .bar { display: none; }
  section { overflow-x: auto; }
  th, td { padding-left: .3rem; padding-right: .3rem; }
}
form { display: flex; gap: .6rem; flex-wrap: wrap; align-items: end; margin: 0; }
label { display: block; font-size: .85rem; color: var(--soft); }
select, input { display: block; margin-top: .2rem; font: inherit; color: inherit; background: var(--back); border: 1px solid var(--line); border-radius: 6px; padding: .35rem .55rem; height: 2.35rem; }
button { font: inherit; height: 2.35rem; border-radius: 6px; border: 1px solid var(--main); background: var(--main); color: #fff; padding: 0 1rem; cursor: pointer; }
button.plain { background: none; color: var(--main); }
button:disabled { opacity: .5; cursor: default; }
@media (prefers-color-scheme: dark) { button { color: #0c1320; } }
:focus-visible { outline: 2px solid var(--main); outline-offset: 2px; }
p { margin: .2rem 0 .7rem; color: var(--soft); font-size: .9rem; }
.told { margin-top: 1rem; }
.told h3 { font-size: .95rem; margin: 0 0 .4rem; }
.told.bad { color: var(--bad); }
.told p { margin: 0 0 .4rem; }
#asked table { max-width: 34rem; }
.head { display: flex; justify-content: space-between; align-items: end; flex-wrap: wrap; gap: .4rem 1rem; margin-bottom: .6rem; }
.head h2, .head p { margin: 0; }
.find { margin-bottom: .75rem; }
.find label.check { display: flex; align-items: center; gap: .45em; height: 2.35rem; }
.find label.check input { height: auto; margin: 0; }
#chart { display: flex; align-items: end; gap: 1px; height: 4rem; border-bottom: 1px solid var(--line); }
#chart i { flex: 1; min-height: 1px; background: var(--main); border-radius: 1px 1px 0 0; }
#chart i.no { background: var(--track); }
.empty { text-align: center; padding: 2rem 1rem; color: var(--soft); }
footer { color: var(--soft); font-size: .85rem; margin-top: 1.25rem; }
footer a { color: inherit; }
</style>
</head>
<body>
<main>
<header><h1>fare hub</h1><span id="state" class="state" role="status">reading</span></header>
<div class="tiles">
  <div class="card"><b id="stored">–</b><span>items stored</span></div>
  <div class="card"><b id="taken">–</b><span>items taken</span></div>
  <div class="card" id="waits"><b id="waiting">–</b><span>taps waiting</span></div>
  <div class="card" id="opens"><b id="open">–</b><span>days to close</span></div>
  <div class="card"><b id="rounds">–</b><span>rounds held</span></div>
</div>
<section class="card">
  <div class="head"><h2>Items stored in the last five minutes</h2><p id="pace" role="status">–</p></div>
  <div id="chart" role="img" aria-label="Items stored, five seconds a bar"></div>
</section>
<div class="forms">
  <section class="card">
    <h2>Bill and settlement</h2>
    <form id="ask">
      <label>Owner<select id="owner" required></select></label>
      <label>Day<input id="day" type="date" min="1970-01-01" max="2243-10-17" required></label>
      <button value="bill">Bill</button>
      <button value="settle" class="plain">Settlement</button>
    </form>
    <div id="asked" class="told" aria-live="polite" hidden></div>
  </section>
  <section class="card">
    <h2>Close days</h2>
    <p>Closes each day whose stated count is met. A closed day stays closed.</p>
    <form id="close"><button>Close days</button></form>
    <div id="closed" class="told" aria-live="polite" hidden></div>
  </section>
  <section class="card">
    <h2>Retire a lane</h2>
    <p>For a device that will never be read out. Nothing more of it is taken for this owner, and no day of it closed.</p>
    <form id="retire">
      <label>Owner<select id="whose" required></select></label>
      <label>Device<input id="device" type="number" min="1" max="4294967295" required></label>
      <button class="plain">Retire</button>
    </form>
    <div id="retired" class="told" aria-live="polite" hidden></div>
  </section>
</div>
<section class="card" id="stations" tabindex="0" aria-label="Stations" hidden></section>
<form class="find" id="find" role="search">
  <label>Find a device<input id="which" type="search" inputmode="numeric" placeholder="its number" autocomplete="off"></label>
  <label class="check"><input id="only" type="checkbox">only what waits or is retired</label>
  <label>Order<select id="order"><option value="worst">most waiting first</option><option value="device">by device</option></select></label>
</form>
<div id="owners"></div>
<footer>Items are taps and statements; they and the rounds are counted since serving began. Also as text: <a href="/stand">stand</a>, <a href="/metrics">metrics</a></footer>
</main>
<script>
"use strict";
const at = id => document.getElementById(id);
const number = n => Number(n).toLocaleString("en-GB");
const make = (tag, text, kind) => {
  const e = document.createElement(tag);
  if (text !== undefined) e.textContent = text;
  if (kind) e.className = kind;
  return e;
};
const DAY = 86400000;
const dateOf = day => new Date(day * DAY).toLocaleDateString("en-GB", { timeZone: "UTC", day: "numeric", month: "short", year: "numeric" });
const dayMark = day => { const e = make("span", dateOf(day)); e.title = "day " + day; return e; };
const closedMark = l => {
  const e = dayMark(l.closed);
  if (l.from) e.title += ", taps are held from " + dateOf(l.from) + " on";
  return e;
};
const pounds = pence => "£" + (pence / 100).toLocaleString("en-GB", { minimumFractionDigits: 2 });
const get = async (path, options) => {
  const answer = await fetch(path, { cache: "no-store", signal: AbortSignal.timeout(15000), ...options });
  return { status: answer.status, lines: (await answer.text()).split("\n").filter(l => l) };
};
const table = (heads, rows, right) => {
  const t = make("table"), h = t.createTHead().insertRow();
  heads.forEach((text, i) => h.append(make("th", text, right(i) ? "n" : "")));
  const b = t.createTBody();
  for (const row of rows) {
    const r = b.insertRow();
    row.forEach((cell, i) => {
      const c = r.insertCell();
      if (right(i)) c.className = "n";
      c.append(cell);
    });
  }
  return t;
};
// THE STATIONS' LINES
const ago = (n, of) => number(Math.round(n / of[0])) + of[1] + " ago";
const since = seconds => seconds < 2 ? "just now" : ago(seconds, seconds < 120 ? [1, " s"] : seconds < 7200 ? [60, " min"] : seconds < 172800 ? [3600, " h"] : [86400, " days"]);
const labels = name => Object.fromEntries([...name.matchAll(/(\w+)="([^"]*)"/g)].map(m => [m[1], m[2]]));
const seenIn = metrics => {
  const seen = { stored: 0, rounds: 0, taken: 0, station: {}, lines: new Map() };
  for (const line of metrics) {
    const [name, n] = line.split(" "), of = labels(name), kind = name.split("{")[0];
    if (kind === "fare_hub_stored_total") seen.stored = Number(n);
    if (kind === "fare_hub_rounds_total") seen.rounds = Number(n);
    if (kind === "fare_hub_taken_total") seen.taken += Number(n);
    if (kind === "fare_hub_device_info") seen.station[of.device] = of.station;
    if (kind === "fare_hub_line_up") seen.lines.set(of.station, { place: seen.lines.size, station: of.station, up: n === "1", devices: 0, rows: 0 });
    if (kind === "fare_hub_line_last_frame_timestamp_seconds" && seen.lines.has(of.station)) seen.lines.get(of.station).heard = Number(n);
  }
  for (const station of Object.values(seen.station)) if (seen.lines.has(station)) seen.lines.get(station).devices += 1;
  return seen;
};
const isQuieter = (a, b) => Number(a.up) - Number(b.up) || (a.heard || 0) - (b.heard || 0) || a.place - b.place;
const heardText = l => l && l.heard ? make("span", since(Date.now() / 1000 - l.heard)) : make("span", "nothing yet", "none");
const showStations = seen => {
  const all = [...seen.lines.values()], down = all.filter(l => !l.up).length, head = make("div", undefined, "head");
  if (at("order").value === "worst") all.sort(isQuieter);
  head.append(make("h2", "Stations"), make("p", down ? number(down) + " of " + number(all.length) + " without a line" : "each has a line"));
  at("stations").hidden = !all.length;
  at("stations").replaceChildren(head, table(["Station", "Devices", "Line", "Last frame", "Waiting"], all.map(l => [
    l.station, number(l.devices), l.up ? make("span", "stands", "none") : make("span", "none", "chip"), heardText(l),
    l.rows ? make("span", number(l.rows), "chip") : make("span", "none", "none"),
  ]), i => i === 1));
};
// WHERE THE LANES STAND
const laneRow = (l, upto, seen) => {
  const bar = make("div", undefined, "bar" + (l.rows ? " some" : ""));
  const part = make("i");
  part.style.width = (l.taken + l.rows ? 100 * l.taken / (l.taken + l.rows) : 0) + "%";
  bar.append(part);
  bar.title = number(l.taken) + " of " + number(l.taken + l.rows) + " taken";
  return [
    l.device, seen.station[l.device] || "–", heardText(seen.lines.get(seen.station[l.device])), number(upto[l.device] || 0), number(l.taken), bar,
    l.rows ? make("span", number(l.rows), "chip") : make("span", "none", "none"),
    l.closed === "none" ? make("span", "none yet", "none") : closedMark(l),
    l.retired ? make("span", "retired", "chip gone") : l.statements ? make("span", number(l.statements) + (l.statements === 1 ? " day" : " days"), "chip") : make("span", "none", "none"),
  ];
};
const isQuiet = l => !l.rows && !l.statements && !l.retired;
const isWorse = (a, b) => b.rows - a.rows || b.statements - a.statements || Number(b.retired) - Number(a.retired) || a.place - b.place;
const isFound = l => {
  const text = at("which").value.trim();
  return (!text || l.device.startsWith(text)) && (!at("only").checked || !isQuiet(l));
};
const laneTable = (owner, own, upto, seen) => {
  const s = make("section", undefined, "card"), head = make("div", undefined, "head");
  const shown = own.filter(isFound), wait = own.filter(l => l.rows || l.statements).length, gone = own.filter(l => l.retired).length;
  if (at("order").value === "worst") shown.sort(isWorse);
  const says = (wait ? number(wait) + " of " + number(own.length) : "none of " + number(own.length)) + (own.length === 1 ? " device" : " devices") + " with something that waits" + (gone ? ", " + number(gone) + " retired" : "") + (shown.length < own.length ? "; " + number(shown.length) + " shown" : "");
  head.append(make("h2", "Owner " + owner), make("p", says));
  s.append(head);
  s.tabIndex = 0;
  s.setAttribute("aria-label", "Devices of owner " + owner);
  if (shown.length) s.append(table(["Device", "Station", "Last frame", "Sent up to", "Taken", "", "Waiting", "Closed through", "To close"], shown.map(l => laneRow(l, upto, seen)), i => i === 3 || i === 4));
  else s.append(make("p", "No device is as it is looked for.", "empty"));
  return s;
};
// WHAT CAME
const BARS = 60, STEP = 5000;
const came = [];
const drawCame = stored => {
  const now = Math.floor(Date.now() / STEP), last = came[came.length - 1];
  if (last && last.stored <= stored) {
    for (let step = last.step + 1; step <= now; step += 1) came.push({ step, more: 0, stored: last.stored });
    const top = came[came.length - 1];
    top.more += stored - top.stored;
    top.stored = stored;
  } else came.splice(0, came.length, { step: now, more: 0, stored });
  while (came.length > BARS) came.shift();
  const most = Math.max(1, ...came.map(c => c.more)), all = came.reduce((n, c) => n + c.more, 0);
  at("chart").replaceChildren(...Array.from({ length: BARS }, (_, i) => {
    const c = came[came.length - BARS + i], bar = make("i", undefined, c && c.more ? "" : "no");
    bar.style.height = c && c.more ? Math.max(4, 100 * c.more / most) + "%" : "1px";
    if (c) bar.title = number(c.more) + " at " + new Date(c.step * STEP).toLocaleTimeString("en-GB");
    return bar;
  }));
  at("pace").textContent = number(all) + " since " + new Date(came[0].step * STEP).toLocaleTimeString("en-GB") + (most > 1 ? ", " + number(most) + " in the busiest five seconds" : "");
};
let owners = "", lately;
const show = (stand, metrics) => {
  lately = [stand, metrics];
  const upto = {}, lanes = [], seen = seenIn(metrics);
  for (const line of stand) {
    const w = line.split(" ");
    if (w[0] === "upto") upto[w[1]] = Number(w[2]);
    if (w[0] === "lane") lanes.push({ place: lanes.length, owner: w[1], device: w[2], taken: Number(w[4]), closed: w[6], rows: Number(w[8]), statements: Number(w[10]), retired: w.includes("retired", 11), from: w[11] === "from" && w[12] });
  }
  const of = new Map();
  for (const l of lanes) of.set(l.owner, [...(of.get(l.owner) || []), l]);
  if (lanes.length) at("owners").replaceChildren(...[...of].map(([owner, own]) => laneTable(owner, own, upto, seen)));
  else at("owners").replaceChildren(make("div", "No device of any owner is registered.", "card empty"));
  const rows = lanes.reduce((n, l) => n + l.rows, 0), open = lanes.reduce((n, l) => n + (l.retired ? 0 : l.statements), 0);
  at("waiting").textContent = number(rows);
  at("waits").classList.toggle("some", rows > 0);
  at("open").textContent = number(open);
  at("opens").classList.toggle("some", open > 0);
  for (const l of lanes) {
    const line = seen.lines.get(seen.station[l.device]);
    if (line && !l.retired) line.rows += l.rows;
  }
  showStations(seen);
  at("stored").textContent = number(seen.stored);
  drawCame(seen.stored);
  at("rounds").textContent = number(seen.rounds);
  at("taken").textContent = number(seen.taken);
  if (owners !== [...of.keys()].join()) {
    owners = [...of.keys()].join();
    for (const id of ["owner", "whose"]) at(id).replaceChildren(...[...of.keys()].map(o => make("option", o)));
  }
  const last = Math.max(0, ...lanes.filter(l => l.closed !== "none").map(l => Number(l.closed)));
  if (!at("day").value && last) at("day").value = new Date(last * DAY).toISOString().slice(0, 10);
};
at("find").addEventListener("submit", event => event.preventDefault());
at("find").addEventListener("input", () => { if (lately) show(...lately); });
const tell = (text, lost) => {
  at("state").textContent = text;
  at("state").classList.toggle("lost", lost);
};
let timer = 0;
const refresh = async () => {
  clearTimeout(timer);
  try {
    const [stand, metrics] = await Promise.all([get("/stand"), get("/metrics")]);
    if (stand.status === 200 && metrics.status === 200) {
      show(stand.lines, metrics.lines);
      tell("serving, as of " + new Date().toLocaleTimeString("en-GB"), false);
    } else {
      const codes = [stand.status, metrics.status];
      tell((codes.includes(500) ? "a store failed" : "the hub answers " + Math.max(...codes)) + "; what is shown may be old", true);
    }
  } catch (e) {
    tell("the hub does not answer; what is shown may be old", true);
  }
  timer = setTimeout(refresh, document.hidden ? 15000 : 2000);
};
document.addEventListener("visibilitychange", () => { if (!document.hidden) refresh(); });
// WHAT IS ASKED
const panel = (id, bad, ...parts) => {
  const p = at(id);
  p.hidden = false;
  p.className = "told" + (bad ? " bad" : "");
  p.replaceChildren(...parts);
};
const why = line => {
  const w = (line || "").split(" ");
  if (line === "store failed") return "A store failed.";
  if (w[1] === "NotClosed") return "Not closed yet: the day of device " + w[2] + ".";
  if (w[1] === "Forgotten") return "Taps of that week were let go, of device " + w[2] + " first: a copy of the files has them.";
  if (w[1] === "BeforeStart") return "The day is before the scheme's first one.";
  if (w[1] === "UnknownOwner") return "The owner is not registered.";
  if (w[1] === "UnknownDevice") return "The device is not registered.";
  if (w[1] === "Retired") return "The lane is retired already.";
  if (w[1] === "Words") return "That is no owner, day or device.";
  return "The hub could not answer.";
};
const answer = (kind, owner, date, lines) => {
  const told = lines.slice(1).map(l => l.split(" ")), head = lines[0].split(" ");
  const rows = told.filter(w => w[0] !== "short"), lacks = told.filter(w => w[0] === "short");
  const when = "owner " + owner + ", " + date;
  const short = lacks.map(w => make("p", "Short of device " + w[1] + ", whose lane is retired."));
  const title = make("h3", (kind === "bill" ? "Bill" : "Settlement") + " · " + when);
  if (kind === "bill") {
    const sum = make("p", pounds(Number(head[4])) + " of " + number(head[3]) + (head[3] === "1" ? " account" : " accounts"));
    return [title, sum, ...short, table(["Product", "Account", "Rides", "Amount"], rows.map(w => [w[1], w[2], number(w[3]), pounds(Number(w[4]))]), i => i > 1)];
  }
  return [title, ...short, table(["Operator", "Taps", "Amount"], rows.map(w => [w[0] === "route" ? make("span", "route " + w[1], "none") : w[1], number(w[2]), pounds(Number(w[3]))]), i => i > 0)];
};
at("ask").addEventListener("submit", async event => {
  event.preventDefault();
  const kind = event.submitter ? event.submitter.value : "bill", owner = at("owner").value, day = at("day").valueAsNumber / DAY;
  try {
    const a = await get("/" + kind + "?owner=" + owner + "&day=" + day);
    if (a.status === 200) panel("asked", false, ...answer(kind, owner, dateOf(day) + " (day " + day + ")", a.lines));
    else panel("asked", true, why(a.lines[0]));
  } catch (e) {
    panel("asked", true, "The hub does not answer.");
  }
});
// An order is given by a second press.
const isSure = (button, asked, plain) => {
  if (button.dataset.sure) return true;
  button.dataset.sure = "1";
  button.textContent = asked;
  setTimeout(() => { delete button.dataset.sure; button.textContent = plain; }, 4000);
  return false;
};
const order = { method: "POST", headers: { "X-Fare-Hub": "1" } };
at("close").addEventListener("submit", async event => {
  event.preventDefault();
  const button = at("close").firstElementChild;
  if (!isSure(button, "Close them now", "Close days")) return;
  button.disabled = true;
  try {
    const a = await get("/close", order);
    const shut = a.lines.filter(l => l.includes(": closed ")).length, short = a.lines.filter(l => l.includes(": refused "));
    const parts = [make("h3", shut === 1 ? "1 day closed" : (shut || "No") + " days closed")];
    for (const l of short) {
      const w = l.split(" ");
      parts.push(make("p", "Not closed: device " + w[2] + " stated " + number(w[6]) + (w[6] === "1" ? " tap" : " taps") + " for " + dateOf(Number(w[3].slice(0, -1))) + ", and " + number(w[7]) + (w[7] === "1" ? " was" : " were") + " taken."));
    }
    if (a.status === 200) panel("closed", false, ...parts);
    else panel("closed", true, a.status === 500 ? "A store failed before all were closed." : "The hub could not close all.");
  } catch (e) {
    panel("closed", true, "The hub does not answer.");
  }
  button.disabled = false;
  refresh();
});
at("retire").addEventListener("submit", async event => {
  event.preventDefault();
  const button = at("retire").lastElementChild, owner = at("whose").value, device = at("device").value;
  if (!isSure(button, "Retire it now", "Retire")) return;
  button.disabled = true;
  try {
    const a = await get("/retire?owner=" + owner + "&device=" + device, order);
    if (a.status === 200) panel("retired", false, make("p", "Owner " + owner + "’s lane of device " + device + " is retired."));
    else panel("retired", true, why(a.lines[0]));
  } catch (e) {
    panel("retired", true, "The hub does not answer.");
  }
  button.disabled = false;
  refresh();
});
refresh();
</script>
</body>
</html>
"##;

// Its text.
pub(crate) fn page() -> &'static str {
    PAGE
}
