//! The page itself: nothing of it comes from elsewhere. The policy names its script and its style by their SHA-256, so
//! that a browser runs no other; tests/run/page compares them.

/// What a browser may load for it, and from where (Content Security Policy Level 3).
pub(crate) const POLICY: &[u8] = b"default-src 'none'; \
    script-src 'sha256-m9yLPqlM2aTEkpVBpnI3qNgowHIoHqw4CeiNAFtrVl8='; \
    style-src 'sha256-LE03M8nzWF/I3LhjHdHudRZuycJs/FWPwSivNVkAfMs='; \
    connect-src 'self'; \
    img-src data:; \
    base-uri 'none'; \
    form-action 'none'; \
    frame-ancestors 'none'";

/// The page itself.
pub const HTML: &str = r##"<!DOCTYPE html>
<html lang="en">
<head>
<meta charset="utf-8">
<meta name="viewport" content="width=device-width, initial-scale=1">
<meta name="color-scheme" content="light dark">
<link rel="icon" href="data:,">
<title>uecp page</title>
<style>
:root { color-scheme: light dark; }
body { font: 1rem/1.45 sans-serif; margin: 0 auto; max-width: 118rem; padding: 0.75rem; color: #111; background: #fff; }
h1 { font-size: 1.4rem; margin: 0 0 0.25rem; }
h2 { font-size: 1.15rem; margin: 1.25rem 0 0.5rem; }
#alarms { max-height: none; border: 0; }
#alarms li { display: flex; flex-wrap: wrap; gap: 0 0.75rem; margin: 0.5rem 0 0; padding: 0.5rem 0.75rem;
  font-size: 1rem; color: #5f1410; background: #fde8e6; border: 1px solid #b3261e; border-left-width: 6px;
  border-radius: 0.3rem; }
#alarms span { flex: 1 1 12rem; min-width: 0; }
#bands { max-height: none; border: 0; }
#bands li { display: flex; flex-wrap: wrap; justify-content: space-between; gap: 0 0.75rem; margin: 0.5rem 0 0;
  padding: 0.4rem 0.75rem; border: 0; border-radius: 0.3rem; font-size: 1.25rem; font-weight: bold; color: #1c1500;
  background: #ffc400; }
#bands span { flex: 1 1 12rem; min-width: 0; }
#bands time { font-variant-numeric: tabular-nums; }
#services, .cards { display: grid; gap: 0.75rem;
  grid-template-columns: repeat(auto-fill, minmax(min(100%, 20rem), 1fr)); }
#services > section { min-width: 0; }
#services > .wide { grid-column: 1 / -1; }
.line { display: flex; flex-wrap: wrap; justify-content: space-between; gap: 0 0.75rem; margin: 0 0 0.3rem; }
.line h3 { font-size: 1.15rem; font-weight: bold; min-width: 0; overflow-wrap: anywhere; }
.line p { margin: 0; }
.bad .line p { color: #b3261e; font-weight: bold; }
.minutes { display: block; width: 100%; max-width: 40rem; height: 1.75rem; margin: 0 0 0.5rem; fill: #05a;
  border-bottom: 1px solid #999; }
article { border: 2px solid #555; border-radius: 0.4rem; padding: 0.6rem 0.8rem; min-width: 0; }
article.on { border-color: #8a6a00; }
.gone article { color: #333; border-style: dashed;
  background: repeating-linear-gradient(135deg, #ddd 0 10px, #ccc 10px 20px); }
.known { font-weight: bold; margin: 0.2rem 0 0; }
.end { font-size: 0.9rem; font-style: italic; margin: 0.2rem 0 0; }
h3, h4 { font-size: 1rem; font-weight: normal; margin: 0; }
.name { font: bold 2rem/1.2 monospace; margin: 0.2rem 0; white-space: pre-wrap; overflow-wrap: anywhere; }
.rt { font-family: monospace; margin: 0.2rem 0; white-space: pre-wrap; overflow-wrap: anywhere; min-height: 1.45em; }
.rest { margin: 0.2rem 0 0; }
.history { margin: 0.4rem 0 0; }
.history ol { max-height: 12rem; margin: 0.3rem 0 0; }
.history li { grid-template-columns: auto 1fr; }
.known[hidden], .end[hidden], .line [hidden] { display: none; }
table { border-collapse: collapse; width: 100%; max-width: 34rem; }
th, td { text-align: left; padding: 0.2rem 0.5rem 0.2rem 0; border-bottom: 1px solid #999; font-weight: normal; }
td { text-align: right; font-variant-numeric: tabular-nums; }
thead th { font-weight: bold; }
thead th + th { text-align: right; }
ol { list-style: none; margin: 0; padding: 0; max-height: 24rem; overflow-y: auto; border: 1px solid #999; }
ol:focus-visible, button:focus-visible, summary:focus-visible { outline: 3px solid #06c; outline-offset: 2px; }
li { display: grid; grid-template-columns: 5rem 7rem 1fr; gap: 0 0.5rem; padding: 0.2rem 0.4rem; font-size: 0.9rem;
  overflow-wrap: anywhere; border-bottom: 1px solid #ccc; border-left: 6px solid transparent; }
.named li { grid-template-columns: 5rem 6rem 7rem 1fr; }
.named li > .about { grid-column: 3; }
li time { font-variant-numeric: tabular-nums; }
li.bad { border-left-color: #b3261e; }
li details { min-width: 0; }
summary { cursor: pointer; }
pre { font: 0.8rem/1.4 monospace; margin: 0.2rem 0; white-space: pre-wrap; }
button { font: inherit; padding: 0.25rem 0.75rem; }
@media (max-width: 34rem) {
  li { grid-template-columns: 5rem 1fr; }
  .named li { grid-template-columns: 5rem 1fr 1fr; }
  li details { grid-column: 1 / -1; }
}
@media (prefers-color-scheme: dark) {
  body { color: #eee; background: #111; }
  article { border-color: #aaa; }
  article.on { border-color: #ffc400; }
  .gone article { color: #ccc; background: repeating-linear-gradient(135deg, #333 0 10px, #2a2a2a 10px 20px); }
  .bad .line p { color: #ff8a80; }
  .minutes { fill: #7bf; }
  #alarms li { color: #ffd9d5; background: #33191a; border-color: #ff8a80; }
  li { border-bottom-color: #444; }
  li.bad { border-left-color: #ff8a80; }
  ol:focus-visible, button:focus-visible, summary:focus-visible { outline-color: #7bf; }
}
</style>
</head>
<body>
<header>
<h1>What the station shows</h1>
<p id="link" role="status" aria-live="polite">connecting</p>
<p id="heard">nothing was told yet</p>
</header>
<main>
<div role="status" aria-label="Alarms"><ol id="alarms"></ol></div>
<ol id="bands" aria-label="Announcements that are on"></ol>
<h2>Services</h2>
<div id="services"><p>nothing was told of a service yet</p></div>
<h2>Counts</h2>
<table>
<thead><tr><th scope="col">What</th><th scope="col">In all</th><th scope="col">In a minute</th></tr></thead>
<tbody id="counts"></tbody>
</table>
<h2>Last events</h2>
<p><button id="hold" type="button" aria-pressed="false">Hold</button></p>
<ol id="events" tabindex="0" aria-label="Last events, the newest first"></ol>
</main>
<template id="chart"><svg class="minutes" role="img" viewBox="0 0 60 20" preserveAspectRatio="none"><title></title>
<path></path></svg></template>
<noscript><p>This page needs JavaScript; the state is at /state, the counts at /metrics.</p></noscript>
<script>
"use strict";
const SHOWN_MAX = 100;
const AFTER = 200;
const REPLAY = 2000;
const OPEN_MAX = 128;
const ASK_EACH = 10000;
const HISTORY_EACH = 5000;
const JITTER = 2000;
const COUNTS = [["sent", "messages answered"], ["sent_refusals", "answered and refused"],
  ["refused_lines", "lines refused before they were sent"], ["messages", "messages received"],
  ["refusals", "received and refused"], ["repeats", "received again (answered by the kept reply)"],
  ["empty", "empty messages received (joining sends 255)"], ["dropped", "segments received that are no frame"],
  ["connections", "connections of the encoder"], ["not_told", "lines that an end could not tell"],
  ["lines", "objects of the lines above"], ["further", "objects of lines that are not shown"],
  ["others", "lines of input that are no object"]];
const TYPES = ["None", "News", "Current Affairs", "Information", "Sport", "Education", "Drama", "Cultures",
  "Science", "Varied Speech", "Pop Music", "Rock Music", "Easy Listening", "Light Classics M",
  "Serious Classics", "Other Music", "Weather & Metr", "Finance", "Children's Progs", "Social Affairs",
  "Religion", "Phone In", "Travel & Touring", "Leisure & Hobby", "Jazz Music", "Country Music",
  "National Music", "Oldies Music", "Folk Music", "Documentary", "Alarm Test", "Alarm - Alarm !"];
const at = id => document.getElementById(id);
const made = (name, kind, text) => {
  const element = document.createElement(name);
  if (kind) element.className = kind;
  element.textContent = text;
  return element;
};
const two = number => String(number).padStart(2, "0");
const hexadecimal = number => two(number.toString(16).toUpperCase());
const clock_of = time => two(time.getHours()) + ":" + two(time.getMinutes()) + ":" + two(time.getSeconds());
let held = false, waiting = [], asked = false, again = false, before = [], opened = 0, unheard = null;
let lines = null, announced = new Map(), empties = new Map(), limit = null, answered = 0;
let histories = new Map(), history_due = 0, history_asked = false, history_again = false;

function set_attribute(element, name, text) {
  if (element.getAttribute(name) !== text) element.setAttribute(name, text);
}
function set_text(element, text) { if (element.textContent !== text) element.textContent = text; }
function title_of(s) {
  const set = s.set === 0 ? "current set" : s.set === 254 ? "other sets" : s.set === 255 ? "all sets" : "set " + s.set;
  return set + ", " + (s.main ? "main service" : "service") + (s.service === 0 ? "" : " " + hexadecimal(s.service));
}
function rest_of(s) {
  const type = s.pty === null ? "" : type_of(s.pty);
  const yes = value => value === null ? "-" : value ? "yes" : "no";
  return "PI " + (s.pi ?? "-") + " · PTY " + (type || "-") + " · TP " + yes(s.tp) + " · TA " + yes(s.ta);
}
function type_of(number) {
  return number + (TYPES[number] === undefined ? "" : " " + TYPES[number]);
}
// Since when something is so, and when a line was heard last; nothing where that was not told.
function since_of(text) { return told_at("since ", text, time => two(time.getHours()) + ":" + two(time.getMinutes())); }
function heard_of(l) { return told_at("last heard ", l.heard, clock_of); }
function told_at(words, text, written) {
  const time = new Date(typeof text === "string" ? text : NaN), now = new Date();
  if (Number.isNaN(time.getTime())) return "";
  const day = time.toDateString() === now.toDateString() ? "" : time.getFullYear() + "-" + two(time.getMonth() + 1)
    + "-" + two(time.getDate()) + " ";
  return words + day + written(time);
}
function joined_by(separator, ...parts) { return parts.filter(text => text).join(separator); }
function quoted(text) { return "\u201C" + text + "\u201D"; }
function whole(number, one, more) { return number + " " + (number === 1 ? one : more); }

// What an element says, and what it is about.
const ELEMENTS = {
  pi: e => ["service", "PI " + e.pi],
  ps: e => ["service", "name " + quoted(e.text)],
  traffic: e => ["traffic", "TP " + (e.tp ? "on" : "off") + ", TA " + (e.ta ? "on" : "off")],
  ms: e => ["service", e.music ? "music" : "speech"],
  pty: e => ["type", "programme type " + type_of(e.type)],
  rt: e => ["RadioText", e.clear ? "RadioText cleared" : "RadioText " + quoted(e.text)],
  select: e => ["service", "set " + e.set + " selected"],
  group: e => ["group", "a group of type " + e.type],
  ack: e => ["reply", e.code === "00" ? "a reply: applied" : "a reply: code " + e.code],
};
function place_of(e) {
  const named = (name, number, text) => number === undefined || number === 0 ? "" : name + " " + text(number) + " ";
  return e.element === "select" ? "" : named("set", e.set, String) + named("service", e.service, hexadecimal);
}
function parts_of(o) {
  return (o.elements ?? []).map(e => [e, (ELEMENTS[e.element] ?? (e => ["frame", e.element]))(e)]);
}
function words_of(parts) { return parts.map(([e, [, text]]) => place_of(e) + text).join(", "); }
function frame_said(o) {
  const parts = parts_of(o), words = words_of(parts);
  const bad = o.fault === null || o.fault === undefined ? "" : "fault " + o.fault.code + " at " + o.fault.place;
  const about = parts.length > 0 ? parts[0][1][0] : "frame";
  return [about, joined_by(", ", words, bad) || "an empty message", bad !== ""];
}
function about_of(o) { return o.code === "00" ? "applied" : "refusal"; }
function coded(o) { return o.code === "00" ? "applied" : "refused: " + o.meaning; }
// A line that the studio's end refused: which, at which column, what is wrong with it, and what it says.
function refused_said(o) {
  const place = typeof o.column === "number" ? o.number + ":" + o.column : o.number;
  return joined_by(": ", "line " + place + " was refused", o.meaning, o.text);
}
function answer_said(o) {
  const parts = parts_of(o), words = joined_by(": ", "message " + o.number + " " + coded(o), words_of(parts));
  return [o.code === "00" && parts.length > 0 ? parts[0][1][0] : about_of(o), words, o.code !== "00"];
}
const ANSWERED = {
  new: o => [about_of(o), coded(o) + (o.sent === false ? ", reply not sent" : ""), o.code !== "00" || o.sent === false],
  repeat: o => ["repeat", "it came again, and was answered as before: " + coded(o), false],
  not_next: () => ["passed over", "it has not the next number", true],
  unnumbered: () => ["passed over", "it has no number", false],
  not_for_me: () => ["passed over", "it is for another encoder", false],
  dropped: () => ["passed over", "no frame", true],
};
const ENDS = { closed: "closed", read_failed: "reading failed", write_failed: "writing failed",
  turns_spent: "too many reads", state_failed: "the state failed" };
function end_of(o) {
  return "connection " + o.number + " ended: " + (ENDS[o.end] ?? o.end)
    + (o.replies === undefined ? "" : ", " + whole(o.replies, "reply", "replies"));
}
function shown_of(o) {
  const name = o.text === undefined || o.text === null ? "no name" : quoted(o.text);
  return "a receiver shows " + name + ", " + (o.rt ? quoted(o.rt.text) : "no text") + ", TA " + (o.ta ? "on" : "off");
}
function stored_of(o) {
  const rt = Array.isArray(o.texts) && o.texts.length > 0 ? o.texts[o.texts.length - 1].text : null;
  return "the store has " + place_of(o) + (typeof o.text === "string" ? quoted(o.text) : "no name")
    + (typeof rt === "string" ? ", " + quoted(rt) : ", no text");
}
// Of each kind of object what it is about, its words, and whether it is of something that went wrong.
const KINDS = {
  frame: frame_said,
  answered: o => (ANSWERED[o.answer] ?? (() => ["answer", String(o.answer), false]))(o),
  answer: answer_said,
  reply: o => o.fresh ? ["applied", "answered", false] : ["repeat", "it came again, and was answered as before", false],
  not_next: () => ["passed over", "it has not the next number", true],
  unnumbered: () => ["passed over", "it has no number", false],
  not_for_me: () => ["passed over", "it is for another encoder", false],
  dropped: o => ["line", "a segment that is no frame: " + o.name, true],
  connection: o => ["connection", "connection " + o.number, false],
  connection_end: o => [o.end === "state_failed" ? "save" : "connection", end_of(o), o.end !== "closed"],
  progress: o => ["connection", whole(o.taken, "message", "messages") + " taken, " + o.outstanding + " wait", false],
  joined: () => ["connection", "the encoder was joined", false],
  not_joined: () => ["connection", "the encoder could not be joined", true],
  given_up: o => ["connection", whole(o.count, "message", "messages") + " that waited are not sent again", true],
  station_applied: () => ["applied", "all messages of the station were applied", false],
  station_refused: o => ["refusal", "message " + o.number + " of the station was refused: " + o.meaning, true],
  unknown: o => ["connection", "message " + o.number + ": not known whether it was applied", true],
  shown: o => ["receiver", shown_of(o), false],
  store: o => ["store", "the store: set " + o.current + " of " + o.sets + " is current", false],
  service: o => ["store", stored_of(o), false],
  queued: o => ["store", "a group of type " + o.type + " waits", false],
  line_refused: o => ["refusal", refused_said(o), true],
  bad_line: o => ["line", String(o.text), true],
  not_told: o => ["line", whole(o.lines, "line was", "lines were") + " not told", true],
  connected: o => ["connection", "connected to " + o.host + " port " + o.port, false],
  no_connection: o => ["connection", "no connection to " + o.host + " port " + o.port + why_of(o), true],
  lost: () => ["connection", "the connection is lost", true],
  answers_nothing: () => ["connection", "the encoder answers nothing: new, or deaf", true],
  line_given_up: () => ["connection", "given up", true],
  ended: o => ["connection", ended_with(o.status), o.status !== 0],
};
function ended_with(status) { return "sending ended" + (typeof status === "number" ? " with status " + status : ""); }
function why_of(o) { return typeof o.why === "string" ? ": " + o.why : ""; }
function other_of(o) {
  const kind = String(o.kind).replaceAll("_", " ");
  return [kind, typeof o.text === "string" ? o.text : kind, false];
}
// When an event was: its own time; else that at which it came, unless it may have come with those that were kept.
function time_of(o) {
  const told = new Date(typeof o.time === "string" ? o.time : NaN), now = Date.now();
  if (!Number.isNaN(told.getTime())) return clock_of(told);
  return now - opened < REPLAY ? "" : clock_of(new Date(now));
}
function said_of(text) {
  const o = JSON.parse(text), [about, words, bad] = (KINDS[o.kind] ?? other_of)(o);
  const line = typeof o.line === "string" ? o.line : "", is_empty = o.kind === "frame" && o.message === "";
  return { kind: o.kind, line, about, words, bad, text, time: time_of(o), is_empty };
}
function row_of(said) {
  const row = made("li", said.bad ? "bad" : "", ""), more = made("details", "", "");
  more.append(made("summary", "", said.words), made("pre", "", said.text));
  row.append(made("time", "", said.time));
  if (said.line) row.append(made("span", "of", said.line));
  row.append(made("span", "about", said.about), more);
  said.row = row;
  return row;
}
// Empty messages that come one behind another, and their answers, are one row. Whether this is told by that one.
function is_in_empties(said) {
  const open = empties.get(said.line);
  if (!said.is_empty) {
    const is_its_answer = open !== undefined && open.waits && said.kind === "answered" && !said.bad;
    if (is_its_answer) open.waits = false;
    else if (said.kind !== "time") empties.delete(said.line);
    return is_its_answer;
  }
  if (open === undefined || !(open.said.row?.isConnected ?? waiting.includes(open.said))) {
    if (empties.size >= OPEN_MAX) empties.clear();
    empties.set(said.line, { said, count: 1, waits: true });
    return false;
  }
  open.count += 1;
  open.waits = true;
  open.said.words = open.count + " empty messages, as an encoder is joined";
  open.said.row?.querySelector("summary").replaceChildren(open.said.words);
  return true;
}
const LINKS = { connected: "connected", no_connection: "no connection", lost: "the connection is lost",
  answers_nothing: "answers nothing", line_given_up: "given up", ended: "sending ended" };
function is_bad_link(l) { return l.link !== null && l.link !== "connected"; }
function link_words(l) { return l.link === null ? "" : joined_by(" ", LINKS[l.link] ?? l.link, since_of(l.since)); }
// When a line was told of last, by this browser's clock: as the page says it now, in whole seconds; where nothing more
// was told of it not later than the page said before.
function keep_told(l) {
  const was = (lines ?? []).find(other => other.line === l.line), told = answered - 1000 * l.silent;
  l.told = was?.counts.lines === l.counts.lines ? Math.min(was.told, told) : told;
}
// For how many seconds nothing was told of a line, and whether that is too long: as far as the page is heard, which is
// asked again and again.
function silent_of(l) {
  const until = Math.min(unheard === null ? Date.now() : Date.parse(unheard), answered + 2 * ASK_EACH);
  return Math.floor((until - l.told) / 1000);
}
function is_stale(l) { return limit !== null && silent_of(l) >= limit; }
function told_since(l) { return told_at("since ", new Date(l.told).toISOString(), clock_of); }
// What is wrong with lines: of which, what, and since when.
function alarms_of(lines) {
  const alarms = [];
  for (const l of lines) {
    if (is_bad_link(l)) {
      alarms.push([l.line, l.link === "ended" ? ended_with(l.status) : LINKS[l.link] ?? l.link, since_of(l.since)]);
    }
    if (l.refused !== null) {
      alarms.push([l.line, "a message was refused: " + (l.refused.meaning ?? "?"), since_of(l.refused.time)]);
    }
    if (l.refused_line !== null) alarms.push([l.line, refused_said(l.refused_line), since_of(l.refused_line.time)]);
    if (l.failed) alarms.push([l.line, "the encoder could not save its state", ""]);
    if (is_stale(l)) alarms.push([l.line, "nothing was told", told_since(l)]);
  }
  return alarms;
}
function show_alarms(alarms) {
  const list = at("alarms"), keys = alarms.map(alarm => JSON.stringify(alarm));
  for (const row of [...list.children]) if (!keys.includes(row.dataset.key)) row.remove();
  alarms.forEach(([line, words, since], place) => {
    if (list.children[place]?.dataset.key === keys[place]) return;
    const row = made("li", "", "");
    row.dataset.key = keys[place];
    row.append(made("b", "", line), made("span", "", words), made("time", "", since));
    list.insertBefore(row, list.children[place] ?? null);
  });
}
function show_title(alarms, some) {
  const words = joined_by(", ", alarms === 0 ? "" : whole(alarms, "alarm", "alarms"), some ? "TA on" : "");
  const title = joined_by(" \u2013 ", words, "uecp page");
  if (document.title !== title) document.title = title;
}
// A band across the page for each announcement that is on, with its time, which counts on by itself.
function show_bands() {
  const list = at("bands"), bands = [...announced.values()];
  bands.forEach(({ words, since }, place) => {
    if (list.children[place] === undefined) {
      const row = made("li", "", "");
      row.append(made("span", "", ""), made("time", "", ""));
      list.append(row);
    }
    const seconds = Math.max(Math.floor((Date.now() - since) / 1000), 0), row = list.children[place];
    set_text(row.children[0], words);
    set_text(row.children[1], Math.floor(seconds / 60) + ":" + two(seconds % 60));
  });
  while (list.children.length > bands.length) list.lastElementChild.remove();
  show_title(at("alarms").children.length, bands.length > 0);
}
function new_section(l) {
  const section = made("section", "", ""), head = made("div", "line", "");
  head.append(made("h3", "", l.line), made("p", "", ""));
  head.children[0].hidden = l.line === "";
  section.dataset.line = l.line;
  section.append(head, at("chart").content.firstElementChild.cloneNode(true), made("div", "cards", ""));
  return section;
}
// A bar for each minute of the last hour, the oldest first, and what they say in words.
function show_minutes(chart, minutes) {
  const most = Math.max(...minutes), now = minutes[minutes.length - 1], top = n => (20 - 20 * n / most).toFixed(2);
  const bars = minutes.map((n, place) => n === 0 ? "" : "M" + place + " 20V" + top(n) + "h0.8V20z").join("");
  const words = "messages a minute, the last hour: most " + most + ", now " + now;
  set_text(chart.children[0], words);
  set_attribute(chart, "aria-label", words);
  set_attribute(chart.children[1], "d", bars);
}
function new_card(l) {
  const card = made("article", "", ""), history = made("details", "history", ""), rows = made("ol", "", "");
  rows.tabIndex = 0;
  history.append(made("summary", "", "history"), rows);
  history.addEventListener("toggle", () => { show_history(card); ask_history(); });
  card.append(made(l.line === "" ? "h3" : "h4", "", ""), made("p", "name", ""), made("p", "rt", ""));
  card.append(made("p", "rest", ""), made("p", "known", ""), made("p", "end", "as the studio was answered"), history);
  return card;
}
// When something began that the page says was so many seconds ago: told twice it is the same, if it differs by little.
function began(told, seconds, before) {
  const since = told - 1000 * seconds;
  return before !== undefined && Math.abs(since - before) < JITTER ? Math.min(since, before) : since;
}
function show_cards(l, box, gone, bands) {
  l.services.forEach((s, place) => {
    if (box.children[place] === undefined) box.append(new_card(l));
    const card = box.children[place], title = title_of(s), key = JSON.stringify([l.line, s.set, s.service]);
    const is_on = s.announced !== null && gone === null;
    if (is_on) {
      const words = joined_by(" \u00B7 ", "Traffic announcement", l.line, (s.name ?? "").trim() || title);
      bands.set(key, { words, since: began(answered, s.announced, announced.get(key)?.since) });
    }
    card.classList.toggle("on", is_on);
    set_text(card.children[0], title);
    set_text(card.children[1], s.name ?? "");
    set_text(card.children[2], s.rt ?? "");
    set_text(card.children[3], rest_of(s));
    set_text(card.children[4], gone ?? "");
    card.children[4].hidden = gone === null;
    card.children[5].hidden = l.end !== "studio";
    set_attribute(card.children[6].children[1], "aria-label", "History of " + title + ", the newest first");
    if (card.dataset.key !== key) {
      card.dataset.key = key;
      show_history(card);
    }
  });
  while (box.children.length > l.services.length) box.lastElementChild.remove();
}
// What changed with a row, in words.
function changed_words(row, before) {
  if (row.rt === null && row.tp === null && row.ta === null) return "nothing is shown any more";
  const flag = value => value === null ? "not known" : value ? "on" : "off";
  const text = row.rt === null ? "RadioText not known" : row.rt === "" ? "no RadioText" : "RadioText " + quoted(row.rt);
  return joined_by(", ", row.rt === before.rt ? "" : text, row.tp === before.tp ? "" : "TP " + flag(row.tp),
    row.ta === before.ta ? "" : "TA " + flag(row.ta));
}
const NOTHING = { rt: null, tp: null, ta: null };
// The rows of each service, the oldest first: when each came by this browser's clock, and its words.
function take_histories(told, now) {
  const taken = new Map();
  for (const l of told) {
    for (const row of l.rows) {
      const key = JSON.stringify([l.line, row.set, row.service]), rows = taken.get(key) ?? [];
      rows.push({ row, came: now - 1000 * row.ago, words: changed_words(row, rows[rows.length - 1]?.row ?? NOTHING) });
      taken.set(key, rows);
    }
  }
  for (const [key, rows] of taken) settle(rows, histories.get(key) ?? []);
  histories = taken;
}
function settle(rows, before) {
  let place = 0;
  for (const one of rows) {
    const is_it = other => other.words === one.words && Math.abs(other.came - one.came) < JITTER;
    const found = before.findIndex((other, at) => at >= place && is_it(other));
    if (found < 0) continue;
    one.came = Math.min(one.came, before[found].came);
    place = found + 1;
  }
}
// The rows of a card's service, the newest first; those that stand there stay.
function show_history(card) {
  const history = card.children[6], list = history.children[1];
  if (!history.open) return list.replaceChildren();
  const rows = (histories.get(card.dataset.key) ?? []).map(one => {
    const time = told_at("", new Date(one.came).toISOString(), clock_of);
    return { time, words: one.words, key: time + " " + one.words };
  }).reverse();
  if (rows.length === 0) rows.push({ time: "", words: "nothing changed in the last day", key: "" });
  const more = rows.length - list.children.length;
  const is_end = more >= 0 && [...list.children].every((row, place) => row.dataset.key === rows[more + place].key);
  const fresh = (is_end ? rows.slice(0, more) : rows).map(({ time, words, key }) => {
    const row = made("li", "", "");
    row.dataset.key = key;
    row.append(made("time", "", time), made("span", "", words));
    return row;
  });
  if (is_end) list.prepend(...fresh); else list.replaceChildren(...fresh);
}
// The history is asked for while a card shows its own, once in so many seconds at most.
function ask_history() {
  if (document.querySelector(".history[open]") === null) return;
  history_again = history_asked;
  if (history_asked) return;
  history_asked = true;
  setTimeout(fetch_history, Math.max(history_due - Date.now(), 0));
}
async function fetch_history() {
  history_due = Date.now() + HISTORY_EACH;
  history_again = false;
  try {
    const answer = await fetch("/history", { cache: "no-store" }), told = await answer.json();
    take_histories(told.lines, Date.now());
    for (const card of document.querySelectorAll("article")) show_history(card);
  } catch (error) {
    history_again = true;
  }
  history_asked = false;
  if (history_again) ask_history();
}
// Of a line that is not connected, of one of which nothing was told for too long, and of all where nothing is heard, it
// is not known what is on the air. Where sending ended it is, if the encoder's end tells it.
function gone_of(l) {
  const silence = is_stale(l) ? "nothing was told for " + whole(silent_of(l), "second", "seconds") : "";
  const is_ended = l.link === "ended" && l.end === "encoder";
  if (is_bad_link(l) && !is_ended) return joined_by(": ", joined_by(" ", "not known", since_of(l.since)), silence);
  if (silence) return "not known " + told_since(l) + ": " + silence;
  return unheard === null ? null : joined_by(" ", "not known", since_of(unheard));
}
function show_line(l, place, bands) {
  const box = at("services"), gone = gone_of(l);
  let section = [...box.children].find(section => section.dataset.line === l.line);
  if (section === undefined) section = new_section(l);
  if (box.children[place] !== section) box.insertBefore(section, box.children[place] ?? null);
  section.classList.toggle("wide", l.services.length > 1);
  section.classList.toggle("bad", is_bad_link(l));
  section.classList.toggle("gone", gone !== null);
  set_text(section.children[0].children[1], joined_by(", ", link_words(l), heard_of(l)));
  show_minutes(section.children[1], l.minutes);
  show_cards(l, section.children[2], gone, bands);
}
function show_lines(told) {
  const box = at("services"), bands = new Map();
  lines = told.sort((a, b) => a.line < b.line ? -1 : a.line > b.line ? 1 : 0);
  if (lines.length > 0) while (box.firstElementChild?.tagName === "P") box.firstElementChild.remove();
  lines.forEach((l, place) => show_line(l, place, bands));
  announced = bands;
  while (lines.length > 0 && box.children.length > lines.length) box.lastElementChild.remove();
  show_alarms(alarms_of(lines));
  show_bands();
}
function counts_of(state) {
  const counts = { others: state.others, further: state.further };
  for (const [key] of COUNTS) counts[key] ??= state.lines.reduce((sum, l) => sum + l.counts[key], 0);
  return counts;
}
function show_counts(counts) {
  const now = Date.now();
  if (before.length > 0 && COUNTS.some(([key]) => counts[key] < before[before.length - 1].counts[key])) before = [];
  before.push({ now, counts });
  while (before.length > 2 && now - before[1].now >= 60000) before.shift();
  const body = at("counts"), past = before[0], minutes = Math.max((now - past.now) / 60000, 1 / 60);
  COUNTS.forEach(([key, name], place) => {
    let row = body.children[place];
    if (row === undefined) {
      row = document.createElement("tr");
      const head = made("th", "", name);
      head.scope = "row";
      row.append(head, made("td", "", ""), made("td", "", ""));
      body.append(row);
    }
    set_text(row.children[1], String(counts[key]));
    set_text(row.children[2], String(Math.round((counts[key] - past.counts[key]) / minutes)));
  });
}
async function ask() {
  if (asked) { again = true; return; }
  asked = true;
  again = false;
  try {
    const answer = await fetch("/state", { cache: "no-store" });
    const state = await answer.json();
    answered = Date.now();
    limit = state.stale;
    state.lines.forEach(keep_told);
    show_lines(state.lines);
    show_counts(counts_of(state));
    ask_history();
  } catch (error) {
    again = true;
  }
  setTimeout(() => { asked = false; if (again) ask(); }, AFTER);
}
function show_events() {
  if (held) return;
  const list = at("events");
  if (waiting.some(said => said.line)) list.classList.add("named");
  const some = waiting.slice(-SHOWN_MAX).reverse().map(row_of);
  waiting = [];
  list.prepend(...some);
  while (list.children.length > SHOWN_MAX) list.lastElementChild.remove();
}
function note(said) {
  if (waiting.length === 0) requestAnimationFrame(show_events);
  waiting.push(said);
  if (waiting.length > 2 * SHOWN_MAX) waiting = waiting.slice(-SHOWN_MAX);
}
at("hold").addEventListener("click", event => {
  held = !held;
  event.currentTarget.setAttribute("aria-pressed", String(held));
  if (!held) show_events();
});
const source = new EventSource("/events");
source.onopen = () => {
  opened = Date.now();
  unheard = null;
  for (const l of lines ?? []) l.told = Infinity;
  set_text(at("link"), "connected");
  ask();
};
source.onerror = () => {
  unheard ??= new Date().toISOString();
  set_text(at("link"), "no connection; it is tried again");
  if (lines !== null) show_lines(lines);
};
source.onmessage = event => {
  const said = said_of(event.data);
  if (!is_in_empties(said) && said.kind !== "time") note(said);
  set_text(at("heard"), "the last event: " + (said.time || "it is not known when"));
  ask();
};
source.addEventListener("gap", () => {
  note({ line: "", about: "line", words: "events are gone", bad: true, text: "", time: clock_of(new Date()) });
});
setInterval(ask, ASK_EACH);
setInterval(() => { if (lines?.some(is_stale)) show_lines(lines); else show_bands(); }, 1000);
</script>
</body>
</html>
"##;
