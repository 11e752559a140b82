//! The parts of the page of a run. `bench/page_text.py --write` makes this file from those in `page/`.
//! Formats: The command line

/// The part of the page before the lines.
pub(crate) const HEAD: &str = r##"<!DOCTYPE html>
<html lang="en">
<head>
<meta charset="utf-8">
<meta name="viewport" content="width=device-width, initial-scale=1">
<meta name="color-scheme" content="light dark">
<meta http-equiv="Content-Security-Policy" content="default-src 'none'; style-src 'unsafe-inline'; script-src 'unsafe-inline'">
<title>A run of Totem</title>
<style>
:root {
  --back: #ffffff; --panel: #f6f6f4; --text: #1c1c1c; --faint: #6a6a6a; --line: #cfcfca; --mark: #dce9fb; --link: #1155cc;
  --bad: #b00000; --good: #38761d; --commit_length: #674ea7;
  --gather: #f6d55c; --commit: #f4a261; --recovery: #b07aa1; --operational: #93c47d; --stopped: #c9c9c9;
}
@media (prefers-color-scheme: dark) {
  :root {
    --back: #16181b; --panel: #202327; --text: #e6e6e3; --faint: #9a9a97; --line: #3b3f45; --mark: #24405f; --link: #84b4ff;
    --bad: #ff7b72; --good: #8fd07a; --commit_length: #b9a5e8;
    --gather: #b99a2d; --commit: #b56a2e; --recovery: #8a5a7c; --operational: #5d8a49; --stopped: #55585c;
  }
  #picture > svg { filter: invert(0.9) hue-rotate(180deg); }
}
* { box-sizing: border-box; }
body {
  display: flex; flex-direction: column; height: 100vh; margin: 0;
  background: var(--back); color: var(--text); font: 14px/1.4 system-ui, sans-serif;
}
h1 { font-size: 16px; margin: 0; }
h2 { font-size: 13px; margin: 0 0 4px; }
p { margin: 4px 0; }
header {
  display: flex; flex-wrap: wrap; gap: 4px 20px; align-items: center;
  padding: 6px 12px; background: var(--panel); border-bottom: 1px solid var(--line);
}
.controls { display: flex; flex-wrap: wrap; gap: 6px; align-items: center; }
#slider { width: 300px; }
#position { min-width: 11em; font-variant-numeric: tabular-nums; }
button, select, input {
  font: inherit; color: inherit; background: var(--back); border: 1px solid var(--line); border-radius: 4px;
}
button { cursor: pointer; }
button.link { padding: 0; border: 0; background: none; color: var(--link); text-align: left; }
button.link:hover { text-decoration: underline; }
#found { color: var(--bad); }
#picture_box { padding: 4px 12px; border-bottom: 1px solid var(--line); }
#picture { position: relative; max-height: 34vh; overflow: auto; contain: content; cursor: pointer; }
#picture svg { display: block; max-width: none; }
/* One pixel for each point of the picture: the script goes by its columns. */
#picture > svg { width: 1200px; height: auto; }
.cursor { position: absolute; background: #1155cc2e; border: 1px solid #1155cc; pointer-events: none; }
main {
  display: grid; grid-template-columns: minmax(300px, 5fr) 8fr; grid-template-rows: 100%; gap: 8px; flex: 1 0 320px; min-height: 0;
  height: 0; padding: 8px 12px;
}
section { min-width: 0; padding: 8px; background: var(--panel); border: 1px solid var(--line); border-radius: 6px; }
#now { display: grid; gap: 8px; align-content: start; min-width: 0; overflow: auto; }
.pair { display: grid; grid-template-columns: 1fr 1fr; gap: 8px; }
.list { position: relative; overflow: auto; contain: strict; background: var(--back); border: 1px solid var(--line); font-size: 13px; }
#events { flex: 1; min-height: 0; }
#events_box { display: flex; flex-direction: column; }
.list.short { height: 180px; }
.list > div { position: relative; }
.row {
  position: absolute; left: 0; right: 0; height: 22px; padding: 1px 6px; display: flex; gap: 8px; white-space: nowrap; overflow: hidden;
}
.row.now { background: var(--mark); }
.row.quiet { color: var(--faint); }
.row.later { opacity: 0.45; }
#events .row { cursor: pointer; }
.number { flex: 0 0 4.5em; text-align: right; color: var(--faint); font-variant-numeric: tabular-nums; }
.words { overflow: hidden; text-overflow: ellipsis; }
.count { color: var(--faint); font-weight: normal; }
.bad { color: var(--bad); }
.good { color: var(--good); }
#event_changes { margin: 0; padding-left: 18px; min-height: 1.4em; }
#nodes { contain: content; padding: 2px; display: grid; grid-template-columns: repeat(auto-fill, minmax(190px, 1fr)); gap: 6px; }
.node { padding: 5px 8px; background: var(--back); border: 1px solid var(--line); border-left-width: 6px; border-radius: 4px; }
.node.now { outline: 2px solid var(--link); }
.node.faint { opacity: 0.4; }
.node div { overflow: hidden; text-overflow: ellipsis; }
.name { font-weight: bold; }
.state { padding: 0 5px; border-radius: 3px; }
.gather { --of: var(--gather); } .commit { --of: var(--commit); } .recovery { --of: var(--recovery); }
.operational { --of: var(--operational); } .stopped { --of: var(--stopped); }
.node { border-left-color: var(--of); }
.state { background: var(--of); }
.minority .state { background: repeating-linear-gradient(45deg, var(--operational) 0 3px, var(--back) 3px 6px); }
.places { display: flex; height: 8px; margin-top: 3px; border: 1px solid var(--line); }
.places .dropped { background: var(--faint); }
.places .committed { background: var(--commit_length); }
.places .open { background: var(--gather); }
#network { display: block; width: 100%; max-height: 300px; font-size: 9px; }
#network text { fill: var(--text); text-anchor: middle; dominant-baseline: central; }
#network .circle { stroke: var(--text); stroke-width: 0.6; fill: var(--of); }
#network .side { fill: none; stroke: var(--bad); stroke-dasharray: 3 2; }
#network .copy { fill: none; stroke: var(--faint); stroke-width: 0.8; }
#network .copy.heard { stroke: var(--link); stroke-width: 2; }
#network .copy.lost { stroke: var(--bad); stroke-dasharray: 3 2; stroke-width: 1.5; }
#network .dot { fill: var(--link); }
#network .dot.lost { fill: var(--bad); }
#network .label { font-size: 7px; fill: var(--faint); }
@media (max-width: 900px) {
  body { height: auto; }
  main { display: block; height: auto; }
  #now { margin-top: 8px; }
  .pair { grid-template-columns: 1fr; }
  #events { flex: none; height: 260px; }
}
</style>
</head>
<body>
<script type="text/plain" id="trace">
"##;

/// The part of the page between the lines and the picture.
pub(crate) const MIDDLE: &str = r##"</script>
<header>
<h1 id="title">A run of Totem</h1>
<div class="controls">
<button id="first" title="To the opening (Home)">|&lt;</button>
<button id="back" title="Back (left arrow)">&lt;</button>
<input id="slider" type="range" min="0" max="0" value="0" aria-label="Place in the run">
<button id="forward" title="Forward (right arrow)">&gt;</button>
<button id="last" title="To the end (End)">&gt;|</button>
<span id="position"></span>
</div>
<div class="controls">
<label>Node <select id="node_filter"><option value="">all</option></select></label>
<label>Call <select id="call_filter"><option value="">all</option></select></label>
<label>Go to <input id="search" type="search" size="12" placeholder="7.1 or 118" title="A call (7.1), an event (118) or a ring (ring 2.2). Key: /"></label>
<span id="found" role="status"></span>
<button id="clear" hidden>Show all</button>
<label><input id="unfold" type="checkbox"> unfold all rounds</label>
</div>
</header>
<details id="picture_box" open>
<summary>Picture</summary>
<div id="picture" title="A click goes to the event, to the ring, or to the call of an arc">
"##;

/// The part of the page behind the picture.
pub(crate) const TAIL: &str = r##"<div id="cursors"></div>
</div>
</details>
<main>
<section id="events_box">
<h2>Events</h2>
<div id="events" class="list" tabindex="0" role="listbox" aria-label="Events"></div>
</section>
<div id="now">
<section>
<h2 id="event_title"></h2>
<ul id="event_changes"></ul>
</section>
<section>
<h2>Nodes</h2>
<div id="nodes"></div>
</section>
<div class="pair">
<section>
<h2>Frames</h2>
<p id="frame_said"></p>
<svg id="network" viewBox="-130 -130 260 260" role="img" aria-label="The nodes and the frames between them"></svg>
</section>
<section>
<h2>Waiting calls <span id="waiting_count" class="count"></span></h2>
<div id="waiting" class="list short"></div>
</section>
</div>
<div class="pair">
<section>
<h2>Log so far <span id="order_count" class="count"></span></h2>
<div id="order" class="list short"></div>
</section>
<section>
<h2>Sessions <span id="sessions_count" class="count"></span></h2>
<div id="sessions" class="list short"></div>
</section>
</div>
<section>
<h2>All calls <span id="calls_count" class="count"></span></h2>
<div id="calls" class="list short"></div>
</section>
</div>
</main>
<script>
"use strict";

// The page of a run. Its data are the lines of `totem trace --format json`, and its picture is that of `--format svg`.
//
// A *step* is a line of the trace that has a column in the picture: an event, a fold, a cut, a heal.
// A *position* is a step, and perhaps an event within an unfolded fold. Step -1 is the opening.
// A *tick* is an event, a turn that loses a copy, a cut or a heal; ticks order the frames.

// ---------------------------------------------------------------- Reading

/** Parses the lines. Numbers of calls have up to 64 bits, so they stay text. */
function parseLines(text) {
  const lines = text.split("\n").filter((line) => line.trim() !== "");
  return lines.map((line) => JSON.parse(line.replace(/"number":(\d+)/g, '"number":"$1"')));
}

// ---------------------------------------------------------------- The run

/** Builds the run of the lines. */
function buildRun(lines) {
  const steps = lines.filter((line) => ["event", "fold", "cut", "heal"].includes(line.kind));
  const { votes } = lines.find((line) => line.kind === "nodes");
  const run = {
    nodes: votes.length,
    votes,
    steps,
    views: [], // of each step: each node's view after it
    sides: [], // of each step: the groups of the cut after it
    ticks: [], // of each step: its last tick
    turns: new Map(), // of each event in a fold: its turn, with its tick
    calls: [],
    rings: new Map(), // of each ring: the step that first installs it
    frames: new Map(),
    copies: [],
    places: [], // of each committed place of the log: its call, and its answer
    counts: lines.find((line) => line.kind === "counts"),
    unanswered: lines.filter((line) => line.kind === "no answer"),
  };
  addViews(run);
  addCalls(run);
  addFrames(run);
  for (const line of lines) {
    if (line.kind === "place") run.places[line.place] = { ...line, name: `${line.client}.${line.number}` };
  }
  return run;
}

/** Returns the view of a node at its opening. */
function openingView(node) {
  const lengths = { committed: 0, trimmed: 0, log: 0 };
  return { node, state: "gather", ring: `0.${node}`, members: [node], isPrimary: false, installed: -1, ...lengths };
}

/** Returns a node's view after the changes of a step. A new ring implies the state operational, unless a state follows. */
function changedView(view, changes, step) {
  const next = { ...view };
  for (const { ring, restored, ...rest } of changes) {
    if (restored !== undefined) next.trimmed = restored;
    if (ring) {
      const { members, votes, all_votes: allVotes, is_primary: isPrimary } = ring;
      Object.assign(next, { state: "operational", ring: ring.ring, members, votes, allVotes, isPrimary, installed: step });
    }
    Object.assign(next, rest);
  }
  return next;
}

/** Adds each step's views, sides and last tick. Views that do not change are shared. */
function addViews(run) {
  let views = Array.from({ length: run.nodes }, (_, before) => openingView(before + 1));
  let sides = [];
  let tick = 0;
  run.steps.forEach((line, step) => {
    if (line.kind === "cut" || line.kind === "heal") sides = line.groups;
    if (line.kind === "event") views = withChanges(views, line.node, line.changes, step);
    for (const turn of line.turns ?? []) {
      turn.tick = ++tick;
      if (turn.log !== undefined) views = withChanges(views, turn.node, [{ log: turn.log }], step);
      if (turn.event !== undefined) run.turns.set(turn.event, turn);
    }
    if (line.kind !== "fold") tick += 1;
    for (const { ring } of line.changes ?? []) if (ring && !run.rings.has(ring.ring)) run.rings.set(ring.ring, step);
    run.views.push(views);
    run.sides.push(sides);
    run.ticks.push(tick);
  });
}

/** Returns the views, of which this node's has these changes. */
function withChanges(views, node, changes, step) {
  if (changes.length === 0) return views;
  return views.map((view) => (view.node === node ? changedView(view, changes, step) : view));
}

/** Adds all calls: each with the step that submits it, and the step that answers or refuses it. */
function addCalls(run) {
  const open = new Map();
  const key = (node, call) => `${node} ${call.client}.${call.number} ${call.operation}`;
  run.steps.forEach((line, step) => {
    if (line.kind !== "event") return;
    const { call } = line.input;
    if (call) {
      const asked = { ...call, name: `${call.client}.${call.number}`, node: line.node, asked: step, answered: Infinity };
      run.calls.push(asked);
      const same = open.get(key(line.node, call)) ?? [];
      open.set(key(line.node, call), [...same, asked]);
    }
    for (const told of line.told) {
      const waiting = open.get(key(line.node, told)) ?? [];
      const answered = told.outcome === "not taken" ? waiting.pop() : waiting.shift();
      if (answered) Object.assign(answered, { answered: step, outcome: told.outcome, reply: told.reply });
    }
  });
}

/** Adds the frames that events send, and the copies of them. */
function addFrames(run) {
  const copies = new Map();
  const send = (sends, node, tick) => {
    for (const frame of sends) {
      run.frames.set(frame.frame, { ...frame, from: node, tick });
      for (const to of frame.to) {
        const copy = { frame: frame.frame, from: node, to, sent: tick, ended: Infinity, isLost: false };
        copies.set(`${frame.frame} ${to}`, copy);
        run.copies.push(copy);
      }
    }
  };
  const end = (frame, to, tick, isLost) => {
    const copy = copies.get(`${frame} ${to}`);
    if (copy && copy.ended === Infinity) Object.assign(copy, { ended: tick, isLost });
  };
  run.steps.forEach((line, step) => {
    if (line.kind === "event") {
      const { turn } = line.input;
      if (turn) end(turn.frame, line.node, run.ticks[step], false);
      send(line.sends, line.node, run.ticks[step]);
    }
    for (const turn of line.turns ?? []) {
      end(turn.frame, turn.node, turn.tick, turn.event === undefined);
      send(turn.sends, turn.node, turn.tick);
    }
  });
  addSendings(run);
}

/** Adds to each call the tick at which its node first sends it after its submission, in a message of its own. */
function addSendings(run) {
  const carriers = new Map();
  for (const frame of run.frames.values()) {
    const isOwn = frame.says.includes(` from ${frame.from} `);
    for (const name of isOwn ? frame.calls : []) carriers.set(name, [...(carriers.get(name) ?? []), frame]);
  }
  for (const call of run.calls) {
    const sent = (carriers.get(call.name) ?? []).filter(({ from }) => from === call.node);
    call.sent = Math.min(Infinity, ...sent.map(({ tick }) => tick).filter((tick) => tick > run.ticks[call.asked]));
  }
}

// ---------------------------------------------------------------- The run at a position

/** Returns the tick of a position. */
function tickAt(run, { step, event }) {
  if (event !== undefined && run.turns.has(event)) return run.turns.get(event).tick;
  return step < 0 ? 0 : run.ticks[step];
}

/** Returns each node's view at a position. */
function viewsAt(run, { step, event }) {
  const before = run.views[step - 1] ?? Array.from({ length: run.nodes }, (_, place) => openingView(place + 1));
  if (step < 0) return before;
  if (event === undefined) return run.views[step];
  return run.steps[step].turns
    .filter((turn) => turn.log !== undefined && turn.event <= event)
    .reduce((views, turn) => withChanges(views, turn.node, [{ log: turn.log }], step), before);
}

/** Returns the calls that wait at a position, each with the reason. */
function waitingAt(run, position, views) {
  const waiting = run.calls.filter((call) => call.asked <= position.step && position.step < call.answered);
  const isEnd = position.step === run.steps.length - 1 && waiting.length === run.unanswered.length;
  const before = new Map();
  return waiting.map((call, place) => {
    const earlier = before.get(call.node) ?? 0;
    before.set(call.node, earlier + 1);
    const view = views[call.node - 1];
    const why = isEnd ? run.unanswered[place].why : reasonOf(run, call, view, tickAt(run, position), earlier);
    return { call, why };
  });
}

/** Returns the reason why a call waits at a node with this view, where `earlier` calls wait there before it. */
function reasonOf(run, call, view, tick, earlier) {
  if (view.state === "stopped") return "its node has stopped";
  if (view.state !== "operational") return `its node is in ${view.state}`;
  if (!view.isPrimary) return `its ring {${view.members}} has ${view.votes} of ${view.allVotes} votes`;
  const isLogged = view.members.length === 1 && view.log - view.committed > earlier;
  return call.sent <= tick || isLogged ? "sent, and not safe yet" : "not sent yet";
}

/** Returns the event number of a position: its own, or that of the last event before. */
function eventAt(run, { step, event }) {
  if (event !== undefined) return event;
  for (let at = step; at >= 0; at -= 1) {
    const line = run.steps[at];
    if (line.event) return line.event;
    if (line.last) return line.last;
  }
  return 0;
}

/** Returns the position of an event: a step, or an event within a fold. */
function positionOf(run, event) {
  const step = run.steps.findIndex((line) => line.event === event || (line.first <= event && event <= line.last));
  if (step < 0) return null;
  return run.steps[step].kind === "fold" ? { step, event } : { step };
}

// ---------------------------------------------------------------- Words, as in the text format

/** Returns what a change says, without its node. */
function wordsOfChange({ ring, state, committed, trimmed, restored, log }) {
  if (ring) {
    const { members, votes, all_votes: all, is_primary: isPrimary } = ring;
    return `installs ring ${ring.ring} of ${members} with ${votes} of ${all} votes, ${isPrimary ? "" : "not "}primary`;
  }
  if (state) return state === "stopped" ? "has stopped" : `is in ${state}`;
  if (committed !== undefined) return `has committed ${committed}`;
  if (trimmed !== undefined) return `drops its first ${trimmed} places for a snapshot`;
  if (restored !== undefined) return `restores a snapshot of ${restored} places`;
  return log !== undefined ? `has ${log} places in its log` : "";
}

/** Returns what an outcome says of its call. */
function wordsOfOutcome({ outcome, reply }) {
  return { done: reply, kept: `${reply}, as before`, refused: `refused, ${reply}`, "not taken": `not taken, ${reply}` }[outcome];
}

/** Returns what an answer says, without its node. */
function wordsOfAnswer(told) {
  const call = `${told.client}.${told.number} ${told.operation}`;
  return told.outcome === "not taken" ? `refuses ${call}: ${told.reply}` : `answers ${call}: ${wordsOfOutcome(told)}`;
}

/** Returns the words of a step, as `--format text` has them. */
function wordsOfStep(line) {
  if (line.kind === "heal") return "heal";
  if (line.kind === "cut") return `cut ${line.groups.join(" ")}`;
  if (line.kind === "fold") return wordsOfFold(line);
  const changes = line.changes.filter((change) => change.log === undefined).map(wordsOfChange);
  const parts = [...changes, ...line.told.map(wordsOfAnswer)];
  return [line.what, ...parts.map((part) => `node ${line.node} ${part}`)].join("; ");
}

/** Returns a count of things, as `1 round` or `20 rounds`. */
function wordsOfCount(count, one, many) {
  return `${count} ${count === 1 ? one : many}`;
}

/** Returns the words of a fold. */
function wordsOfFold({ first, last, frames, rounds, lost }) {
  const copies = wordsOfCount(lost, "copy lost", "copies lost");
  if (frames === 0) return copies;
  const events = first === last ? `${first}` : `${first}-${last}`;
  const words = `${events}: ${wordsOfCount(rounds, "round", "rounds")}, ${wordsOfCount(frames, "frame", "frames")}`;
  return lost > 0 ? `${words}, ${copies}` : words;
}

/** Returns the words of an event within a fold. */
function wordsOfTurn(run, event) {
  const turn = run.turns.get(event);
  return `node ${turn.node} hears frame ${turn.frame} of node ${turn.from}`;
}

// ---------------------------------------------------------------- Elements

const $ = (id) => document.getElementById(id);

/** Makes an element with these attributes and children; text is never read as HTML. */
function make(name, attributes = {}, ...children) {
  const svg = ["svg", "g", "path", "circle", "text", "rect"].includes(name);
  const element = svg ? document.createElementNS("http://www.w3.org/2000/svg", name) : document.createElement(name);
  for (const [key, value] of Object.entries(attributes)) element.setAttribute(key, value);
  element.append(...children);
  return element;
}

/** Makes words that go to a step when they are clicked, and to a call if one is named. */
function link(words, step, call) {
  if (!Number.isFinite(step)) return words;
  return make("button", { class: "link", "data-step": step, ...(call ? { "data-call": call } : {}) }, words);
}

/** Makes a call's name, which goes to its submission. */
function callLink(run, name) {
  return link(name, run.calls.find((call) => call.name === name)?.asked ?? NaN, name);
}

/** What is in sight of an element that scrolls. It is kept here, since asking the element lays the whole page out. */
class Sight {
  constructor(root, changed) {
    Object.assign(this, { root, top: root.scrollTop, height: root.clientHeight });
    root.addEventListener("scroll", () => changed((this.top = root.scrollTop)));
    new ResizeObserver(() => changed((this.height = root.clientHeight))).observe(root);
  }

  /** Scrolls where a part is not in sight. */
  bring(top, height) {
    if (top >= this.top && top + height <= this.top + this.height) return;
    this.root.scrollTop = Math.max(0, top - this.height / 2);
    this.top = this.root.scrollTop;
  }
}

/** A list that makes only the rows in sight. */
class LongList {
  constructor(root, rowOf) {
    Object.assign(this, { rowOf, count: 0, height: 22, inner: root.appendChild(make("div")) });
    this.sight = new Sight(root, () => this.draw());
  }

  /** Shows this number of rows, and brings one of them in sight. */
  show(count, index) {
    this.count = count;
    this.inner.style.height = `${count * this.height}px`;
    if (index >= 0) this.sight.bring(index * this.height, 2 * this.height);
    this.draw();
  }

  draw() {
    const first = Math.max(0, Math.floor(this.sight.top / this.height) - 5);
    const last = Math.min(this.count, first + Math.ceil(this.sight.height / this.height) + 10);
    const rows = [];
    for (let index = first; index < last; index += 1) {
      const row = this.rowOf(index);
      row.classList.add("row");
      row.style.top = `${index * this.height}px`;
      rows.push(row);
    }
    this.inner.replaceChildren(...rows);
  }
}

// ---------------------------------------------------------------- The page

/** As the program draws it: a column's width, the space above all lanes, a lane's height, where the first lane's bar is, and the space
 * behind a band's columns. */
const [COLUMN, HEAD, LANE, BAR_TOP, BAR_BOTTOM, BEHIND] = [16, 24, 56, 50, 66, 80];

const run = buildRun(parseLines($("trace").textContent));
const page = {
  position: { step: -1 },
  rows: [], // the positions that the list of events has
  row: 0,
  unfolded: new Set(),
  node: "",
  call: "",
  bands: pictureBands(),
  sight: new Sight($("picture"), () => {}),
};
const lists = {
  events: new LongList($("events"), eventRow),
  waiting: new LongList($("waiting"), (index) => waitingRow(page.waiting[index])),
  order: new LongList($("order"), placeRow),
  sessions: new LongList($("sessions"), (index) => sessionRow(page.sessions[index])),
  calls: new LongList($("calls"), (index) => callRow(page.calls[index])),
};

/** Whether a step is shown under the filters. */
function isShown(line, step) {
  if (line.kind === "cut" || line.kind === "heal") return true;
  if (page.node && line.kind === "event" && line.node !== Number(page.node)) return false;
  if (page.node && line.kind === "fold" && !line.turns.some((turn) => turn.node === Number(page.node))) return false;
  if (!page.call) return true;
  if (line.kind === "fold") return line.turns.some(isOfCall);
  return isOfCall(line) || run.calls.some((call) => call.name === page.call && (call.asked === step || call.answered === step));
}

/** Whether what an event hears or sends has the call of the filter. */
function isOfCall(line) {
  const frame = run.frames.get(line.frame ?? line.input?.turn?.frame);
  return [frame, ...line.sends].some((sent) => sent?.calls.includes(page.call));
}

/** Builds the list of positions, under the filters and with the unfolded folds. */
function buildRows() {
  page.rows = [{ step: -1 }];
  run.steps.forEach((line, step) => {
    if (!isShown(line, step)) return;
    const isUnfolded = line.kind === "fold" && (page.unfolded.has(step) || $("unfold").checked);
    if (isUnfolded) {
      for (let event = line.first; event <= line.last && event > 0; event += 1) {
        const node = run.turns.get(event)?.node;
        if (!page.node || node === Number(page.node)) page.rows.push({ step, event });
      }
    }
    if (!isUnfolded || line.frames === 0) page.rows.push({ step });
  });
  $("slider").max = page.rows.length - 1;
}

/** Goes to a position: to its row, or to the last row before it. */
function go(position) {
  if (position.event !== undefined && !page.unfolded.has(position.step) && !$("unfold").checked) {
    page.unfolded.add(position.step);
    buildRows();
  }
  const isAfter = (row) => row.step > position.step || (row.step === position.step && row.event > (position.event ?? Infinity));
  const after = page.rows.findIndex(isAfter);
  goToRow(after < 0 ? page.rows.length - 1 : after - 1);
}

/** Goes to a row of the list of events. */
function goToRow(row) {
  page.row = Math.min(Math.max(row, 0), page.rows.length - 1);
  page.position = page.rows[page.row];
  show();
}

/** Folds or unfolds the rounds of a step. */
function toggleFold(step) {
  if (run.steps[step]?.kind !== "fold" || run.steps[step].frames === 0) return;
  const isUnfolded = page.unfolded.delete(step);
  if (!isUnfolded) page.unfolded.add(step);
  buildRows();
  go(isUnfolded ? { step } : { step, event: run.steps[step].first });
}

/** Shows the run at the position. */
function show() {
  const { position } = page;
  const views = viewsAt(run, position);
  page.committed = Math.max(0, ...views.map((view) => view.committed));
  page.waiting = waitingAt(run, position, views).filter(({ call }) => isCallShown(call));
  showPosition();
  showEvent();
  showNodes(views);
  showNetwork(views);
  showSessions(views);
  $("waiting_count").textContent = page.waiting.length;
  lists.waiting.show(page.waiting.length, -1);
  $("order_count").textContent = orderWords();
  lists.order.show(page.committed, page.committed - 1);
  page.calls = run.calls.filter(isCallShown);
  $("calls_count").textContent = `${page.calls.length}`;
  lists.calls.show(page.calls.length, page.calls.findIndex((call) => call.asked === position.step));
  lists.events.show(page.rows.length, page.row);
  showCursor();
}

/** Whether a call is shown under the filters. */
function isCallShown(call) {
  return (!page.call || call.name === page.call) && (!page.node || call.node === Number(page.node));
}

/** Shows the place in the run, also in the address. */
function showPosition() {
  const event = eventAt(run, page.position);
  $("slider").value = page.row;
  $("position").textContent = `event ${event} of ${run.counts.events}`;
  const line = run.steps[page.position.step];
  const isLine = line && line.kind !== "event" && page.position.event === undefined;
  clearTimeout(page.address);
  const address = isLine ? `#line=${page.position.step + 1}` : `#event=${event}`;
  page.address = setTimeout(() => history.replaceState(null, "", address), 100);
}

/** Shows the event: what it is, and what it changes. */
function showEvent() {
  const { step, event } = page.position;
  const line = run.steps[step];
  const changes = [];
  if (!line) {
    $("event_title").textContent = "The opening: each node is in gather, with an empty log";
  } else if (event !== undefined) {
    $("event_title").textContent = `${event} ${wordsOfTurn(run, event)}`;
  } else if (line.kind === "event") {
    $("event_title").textContent = `${line.event} ${line.what}`;
    changes.push(...line.changes.map((change) => make("li", {}, `node ${line.node} ${wordsOfChange(change)}`)));
    changes.push(...line.told.map((told) => make("li", { class: "good" }, `node ${line.node} ${wordsOfAnswer(told)}`)));
  } else {
    $("event_title").textContent = wordsOfStep(line);
    const unfold = make("button", { class: "link", "data-fold": step }, "unfold these rounds (u)");
    if (line.frames > 0) changes.push(make("li", {}, unfold));
  }
  $("event_changes").replaceChildren(...changes);
}

/** Shows each node's state, ring, log and waiting calls. */
function showNodes(views) {
  const line = run.steps[page.position.step];
  const now = run.turns.get(page.position.event)?.node ?? line?.node;
  $("nodes").replaceChildren(...views.map((view) => nodeCard(view, view.node === now)));
}

/** Makes the card of a node. */
function nodeCard(view, isNow) {
  const isMinority = view.state === "operational" && !view.isPrimary;
  const isFaint = page.node && view.node !== Number(page.node);
  const classes = ["node", view.state, isMinority && "minority", isNow && "now", isFaint && "faint"].filter(Boolean);
  const votes = run.votes.some((vote) => vote !== 1) ? `, votes ${run.votes[view.node - 1]}` : "";
  const ring =
    view.installed < 0
      ? "no ring yet"
      : `of ${view.members}, ${view.votes} of ${view.allVotes} votes, ${view.isPrimary ? "" : "not "}primary`;
  const name = view.state === "operational" ? "ring" : "last ring";
  const dropped = view.trimmed > 0 ? `, ${view.trimmed} dropped` : "";
  const waiting = run.calls.filter(
    (call) => call.node === view.node && call.asked <= page.position.step && page.position.step < call.answered
  );
  const state = make("span", { class: "state" }, view.state);
  const count = waiting.length > 0 ? `waiting ${waiting.length}: ` : "";
  const names = waiting.slice(0, 8).flatMap((call) => [link(call.name, call.asked, call.name), " "]);
  return make(
    "div",
    { class: classes.join(" "), "data-node": view.node },
    make("div", {}, make("span", { class: "name" }, `node ${view.node}`), " ", state, votes),
    make("div", { class: "ring" }, ...(view.installed < 0 ? [] : [link(`${name} ${view.ring}`, view.installed), " "]), ring),
    make("div", { class: "log" }, `committed ${view.committed}${dropped}, log ${view.log}`),
    placesBar(view),
    make("div", { class: "calls" }, count, ...names, waiting.length > 8 ? ".." : "")
  );
}

/** Makes the bar of a node's places, against the longest log: dropped, committed, and not committed. */
function placesBar(view) {
  const most = Math.max(1, page.committed, ...viewsAt(run, page.position).map(({ log }) => log));
  const part = (kind, count) => make("div", { class: kind, style: `width: ${(100 * count) / most}%` });
  return make(
    "div",
    { class: "places", title: `dropped ${view.trimmed}, committed ${view.committed}` },
    part("dropped", view.trimmed),
    part("committed", view.committed - view.trimmed),
    part("open", Math.max(0, view.log - view.committed))
  );
}

/** Shows the nodes on a circle, the copies under way between them, and the frame of this event. */
function showNetwork(views) {
  const tick = tickAt(run, page.position);
  const arcs = new Map();
  const add = (copy, kind) => {
    const key = `${copy.from} ${copy.to} ${kind}`;
    arcs.set(key, [...(arcs.get(key) ?? []), copy.frame]);
  };
  for (const copy of run.copies) {
    if (copy.sent <= tick && tick < copy.ended) add(copy, "open");
    if (copy.ended === tick && copy.isLost) add(copy, "lost");
  }
  const heard = heardAt(page.position);
  if (heard?.from) add(heard, "heard");
  const shapes = [...arcs].map(([key, frames]) => copyShape(...key.split(" "), frames));
  $("network").replaceChildren(...sideShapes(), ...shapes, ...views.map(nodeShape));
  const says = run.frames.get(heard?.frame)?.says;
  $("frame_said").textContent = heard ? `Frame ${heard.frame}${says ? `: ${says}` : ""}` : "No frame is heard here.";
}

/** Returns the frame that is heard at a position, with its sender and its receiver. */
function heardAt({ step, event }) {
  const turn = run.turns.get(event);
  if (turn) return { frame: turn.frame, from: turn.from, to: turn.node };
  const line = run.steps[step];
  if (line?.kind !== "event") return null;
  const { turn: heard, delivery } = line.input;
  if (heard) return { ...heard, to: line.node };
  return delivery?.frame ? { frame: delivery.frame, from: run.frames.get(delivery.frame)?.from, to: line.node } : null;
}

/** Returns where a node is on the circle. */
function placeOf(node, radius = 88) {
  const angle = (2 * Math.PI * (node - 1)) / run.nodes - Math.PI / 2;
  return [radius * Math.cos(angle), radius * Math.sin(angle)];
}

/** Makes a node's circle. */
function nodeShape(view) {
  const [x, y] = placeOf(view.node);
  const size = run.nodes > 8 ? 11 : 15;
  const ring = view.installed < 0 ? "" : view.ring;
  return make(
    "g",
    { class: view.state },
    make("circle", { class: "circle", cx: x, cy: y, r: size }),
    make("text", { x, y }, `${view.node}`),
    make("text", { class: "label", x, y: y + size + 10 }, ring)
  );
}

/** Makes a dashed circle around each node of a cut, and its side's name. */
function sideShapes() {
  const sides = run.sides[page.position.step] ?? [];
  const size = run.nodes > 8 ? 14 : 19;
  return sides.flatMap((side) =>
    side.flatMap((node) => {
      const [x, y] = placeOf(node);
      return [
        make("circle", { class: "side", cx: x, cy: y, r: size }),
        make("text", { class: "label", x: x * 1.34, y: y * 1.34 }, `{${side}}`),
      ];
    })
  );
}

/** Makes the arc of copies between two nodes, with their frames' numbers. */
function copyShape(from, to, kind, frames) {
  const [x1, y1] = placeOf(Number(from));
  const [x2, y2] = from === to ? placeOf(Number(from), 50) : placeOf(Number(to));
  const [mx, my] = [(x1 + x2) / 2 + (y2 - y1) * 0.14, (y1 + y2) / 2 - (x2 - x1) * 0.14];
  const names = frames.length > 3 ? `${frames[0]} .. ${frames[frames.length - 1]}` : frames.join(" ");
  const [dx, dy] = [(x1 + x2) / 4 + mx / 2, (y1 + y2) / 4 + my / 2];
  return make(
    "g",
    {},
    make("path", { class: `copy ${kind}`, d: `M ${x1} ${y1} Q ${mx} ${my} ${x2} ${y2}` }),
    make("circle", { class: `dot ${kind}`, cx: dx, cy: dy, r: kind === "heard" ? 3.5 : 2.5 }),
    make("text", { class: "label", x: dx, y: dy + (kind === "heard" ? 9 : -6) }, names)
  );
}

/** Shows each client's last call that took effect: at the node of the filter, or at the node that has committed most. */
function showSessions(views) {
  const view = page.node ? views[Number(page.node) - 1] : null;
  const upto = view ? view.committed : page.committed;
  const last = new Map();
  for (const at of run.places.slice(0, upto)) if (at.outcome === "done") last.set(at.client, at);
  page.sessions = [...last.values()].filter((at) => !page.call || at.name === page.call).sort((a, b) => a.client - b.client);
  $("sessions_count").textContent = `${page.sessions.length}${view ? `, at node ${view.node}` : ""}`;
  lists.sessions.show(page.sessions.length, -1);
}

/** Returns the count of places and of calls that took effect. */
function orderWords() {
  const places = run.places.slice(0, page.committed);
  const done = places.filter((at) => at.outcome === "done").length;
  return `places: ${page.committed}, took effect: ${done}`;
}

/** Marks the position in the picture, and keeps it in sight. */
function showCursor() {
  const column = page.position.step + 1;
  const shown = page.bands.filter((band) => band.begin <= column * COLUMN && column * COLUMN < band.begin + band.width);
  const cursors = shown.map(({ x, y, height, begin }) => {
    const left = x + column * COLUMN - begin;
    return make("div", { class: "cursor", style: `left: ${left}px; top: ${y}px; width: ${COLUMN}px; height: ${height}px` });
  });
  $("cursors").replaceChildren(...cursors);
  if (shown.length > 0) page.sight.bring(shown[0].y, shown[0].height);
}

// ---------------------------------------------------------------- Rows of lists

function eventRow(index) {
  const { step, event } = page.rows[index];
  const line = run.steps[step];
  const isQuiet = !line || line.kind === "fold";
  const row = make("div", { class: isQuiet ? "quiet" : "", "data-row": index, role: "option" });
  if (index === page.row) row.classList.add("now");
  if (index === page.row) row.setAttribute("aria-selected", "true");
  const number = event ?? line?.event ?? "";
  let words = line ? wordsOfStep(line) : "the opening";
  if (event !== undefined) words = wordsOfTurn(run, event);
  if (line && (line.kind === "cut" || line.kind === "heal")) row.classList.add(line.kind === "cut" ? "bad" : "good");
  row.append(make("span", { class: "number" }, `${number}`), make("span", { class: "words", title: words }, words));
  return row;
}

function waitingRow({ call, why }) {
  const words = `${call.operation} at node ${call.node}: ${why}`;
  return make("div", {}, link(call.name, call.asked, call.name), make("span", { class: "words" }, words));
}

function placeRow(index) {
  const at = run.places[index];
  const row = make("div", { class: at.outcome === "done" ? "" : "quiet" }, make("span", { class: "number" }, `${index}`));
  row.append(callLink(run, at.name), make("span", { class: "words" }, `${at.operation}: ${wordsOfOutcome(at)}`));
  return row;
}

function sessionRow(at) {
  const words = `${at.operation}: ${at.reply}`;
  const client = make("span", { class: "number" }, `${at.client}`);
  return make("div", {}, client, callLink(run, at.name), make("span", { class: "words" }, words));
}

function callRow(call) {
  const isLater = call.asked > page.position.step;
  const row = make("div", { class: isLater ? "later" : "" }, link(call.name, call.asked, call.name));
  const event = (step) => run.steps[step].event;
  row.append(make("span", { class: "words" }, `${call.operation} at node ${call.node}`));
  if (call.answered === Infinity) row.append(make("span", { class: "bad" }, "no answer"));
  else row.append(link(`event ${event(call.answered)}: ${wordsOfOutcome(call)}`, call.answered));
  if (call.asked === page.position.step || call.answered === page.position.step) row.classList.add("now");
  return row;
}

// ---------------------------------------------------------------- The picture

/** Returns the bands of the picture: where each is, and where in the strip it begins. */
function pictureBands() {
  return [...document.querySelectorAll("#picture > svg > svg")].map((band) => {
    const [x, y, width, height] = ["x", "y", "width", "height"].map((name) => Number(band.getAttribute(name)));
    return { x, y, width: width - BEHIND, height, begin: Number(band.getAttribute("viewBox").split(" ")[0]) };
  });
}

/** Goes where a click in the picture points: to a ring's installation, to the call of an arc, or to the event of the column. */
function clickPicture(event) {
  const box = document.querySelector("#picture > svg").getBoundingClientRect();
  const [x, y] = [event.clientX - box.x, event.clientY - box.y];
  const band = page.bands.find((at) => at.x <= x && x < at.x + at.width && at.y <= y && y < at.y + at.height);
  if (!band) return;
  const inStrip = x - band.x + band.begin;
  const step = Math.min(Math.floor(inStrip / COLUMN) - 1, run.steps.length - 1);
  const node = Math.floor((y - band.y - HEAD) / LANE) + 1;
  const below = y - band.y - (node - 1) * LANE;
  const view = run.views[step]?.[node - 1];
  const call = callNear(inStrip, below, node);
  if (call) {
    choose({ call: call.name });
    go({ step: call.asked });
  } else if (view?.state === "operational" && BAR_TOP <= below && below < BAR_BOTTOM) {
    go({ step: view.installed });
  } else {
    go({ step });
  }
}

/** Returns the call whose arc passes within three points of a place in a lane. */
function callNear(x, below, node) {
  const end = (run.steps.length + 1) * COLUMN;
  return run.calls.find((call) => {
    const from = (call.asked + 1) * COLUMN;
    const to = Math.min(end, (call.answered + 1) * COLUMN);
    const part = (x - from) / (to - from);
    const arc = BAR_TOP - 40 * part * (1 - part);
    return call.node === node && 0 <= part && part <= 1 && below < BAR_TOP && Math.abs(below - arc) < 3;
  });
}

// ---------------------------------------------------------------- Inputs

/** Sets filters, and shows the rows that they leave. */
function choose({ node = page.node, call = page.call }) {
  Object.assign(page, { node, call });
  $("node_filter").value = node;
  $("call_filter").value = call;
  $("clear").hidden = !node && !call;
  buildRows();
}

/** Goes to what the search names: a call `7.1`, an event `118`, or a ring `ring 2.2`. */
function search(words) {
  const ring = /^ring (\d+\.\d+)$/.exec(words);
  const call = run.calls.find(({ name }) => name === words);
  $("found").textContent = "";
  if (call) {
    choose({ call: words });
    go({ step: call.asked });
  } else if (ring && run.rings.has(ring[1])) {
    go({ step: run.rings.get(ring[1]) });
  } else if (/^\d+$/.test(words) && positionOf(run, Number(words))) {
    go(positionOf(run, Number(words)));
  } else {
    $("found").textContent = `no ${words}`;
  }
}

/** Goes to what the address names: `#event=118` or `#line=20`. */
function readAddress() {
  const [, kind, number] = /^#(event|line)=(\d+)$/.exec(location.hash) ?? [];
  if (kind === "line") go({ step: Number(number) - 1 });
  else if (kind === "event") go(positionOf(run, Number(number)) ?? { step: -1 });
  else go({ step: -1 });
}

const KEYS = {
  ArrowRight: () => goToRow(page.row + 1),
  ArrowLeft: () => goToRow(page.row - 1),
  Home: () => goToRow(0),
  End: () => goToRow(page.rows.length - 1),
  u: () => toggleFold(page.position.step),
  "/": () => $("search").focus(),
};

function listen() {
  addEventListener("keydown", (event) => {
    const isTyping = ["search", "node_filter", "call_filter"].includes(event.target.id);
    if (isTyping || event.ctrlKey || event.altKey || event.metaKey || !KEYS[event.key]) return;
    event.preventDefault();
    KEYS[event.key]();
  });
  addEventListener("hashchange", readAddress);
  addEventListener("click", (event) => {
    const target = event.target.closest("[data-step], [data-row], [data-fold]");
    if (!target) return;
    const { step, row, fold, call } = target.dataset;
    if (fold !== undefined) return toggleFold(Number(fold));
    if (row !== undefined) return goToRow(Number(row));
    if (call && page.call && page.call !== call) choose({ call });
    return go({ step: Number(step) });
  });
  $("events").addEventListener("dblclick", () => toggleFold(page.position.step));
  $("picture").addEventListener("click", clickPicture);
  $("slider").addEventListener("input", () => goToRow(Number($("slider").value)));
  $("first").addEventListener("click", KEYS.Home);
  $("back").addEventListener("click", KEYS.ArrowLeft);
  $("forward").addEventListener("click", KEYS.ArrowRight);
  $("last").addEventListener("click", KEYS.End);
  $("search").addEventListener("change", () => search($("search").value.trim()));
  $("unfold").addEventListener("change", () => {
    buildRows();
    go(page.position);
  });
  for (const [id, name] of [["node_filter", "node"], ["call_filter", "call"]]) {
    $(id).addEventListener("change", () => {
      choose({ [name]: $(id).value });
      go(page.position);
    });
  }
  $("clear").addEventListener("click", () => {
    choose({ node: "", call: "" });
    go(page.position);
  });
}

function start() {
  const names = [...new Set(run.calls.map(({ name }) => name))];
  $("call_filter").append(...names.map((name) => make("option", { value: name }, name)));
  for (let node = 1; node <= run.nodes; node += 1) $("node_filter").append(make("option", { value: node }, `${node}`));
  $("title").textContent = `A run of ${run.nodes} nodes: ${run.counts.events} events, ${run.counts.frames} frames`;
  buildRows();
  listen();
  readAddress();
}

start();
</script>
</body>
</html>
"##;
