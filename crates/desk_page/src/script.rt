//! What the page does.

/// The page's script.
pub const SCRIPT: &str = r##"
"use strict";

// Under which name the login is kept, and how many rows come with an answer and are shown at a time.
const KEPT = "login", MOST = 1000, SHOWN = 200;
// The name of the server without that of the desk; a session's host name is one before it.
const BASE = location.host.replace(/^desk\./, "");
// What has to be empty once somebody has signed out.
const CLEARED = ".answer, .bar, .list, .lines, dialog h2, #my-name, #my-facts, #handles, #secret-text, #shared";
const LAST_DAY = Date.UTC(10000, 0) / 1000;

const KINDS = ["", "account", "application", "grain", "grant", "reference", "session", "handle", "run", "change"];
// The fields of a request in the order in which the server counts them, by the end of its path.
const FIELDS = {
    accounts: ["handle", "name"], grains: ["application", "title"], redeem: ["token"],
    share: ["account", "role", "list of needs", "time"], link: ["role", "list of needs", "time"],
};
const MANIFEST_FIELDS = ["", "title", "version", "list of permissions", "list of roles", "list of what it matches"];
const MANIFEST_FAULTS = [
    null, () => "This is no manifest.", (field) => `The manifest's ${MANIFEST_FIELDS[field]} isn't as it has to be.`,
    (place) => `Role ${place + 1} of the manifest is a second default.`,
    (place) => `Permission ${place + 1} of the manifest has the name of an earlier one.`,
    (place) => `Role ${place + 1} of the manifest has more permissions than there are.`,
    (list) => `The manifest's ${MANIFEST_FIELDS[list + 2]} is too long.`,
];
// What the server says, by its names for it.
const WORDS = {
    UnknownKey: "Nothing has this token.",
    AccountDisabled: "This account is disabled.",
    GrainTrashed: "The grain is in the trash.",
    NoShare: "You have no access to this grain.",
    Revoked: "It was revoked.",
    Expired: "It has ended.",
    Unmet: "Something that it needs doesn't hold.",
    SourceLost: "Whoever gave it has no access any more.",
    NotAdmin: "Only an admin may do that.",
    NotOwner: "Only the owner may do that.",
    NotGiver: "Only the grain's owner, its first giver and its recipient may do that.",
    Unknown: (kind, number) => `There is no ${KINDS[kind] ?? "such thing"} ${number}.`,
    BadRole: "The application has no such role.",
    ObsoleteRole: "The application gives this role no more.",
    PastMoment: "That time has passed already.",
    BadParent: "This token isn't a link's, so it can't be taken.",
    SelfShare: "That is yourself.",
    HandleTaken: "There is an account of that handle already.",
    LastAdmin: "No enabled admin would be left.",
    Manifest: (fault, place) => MANIFEST_FAULTS[fault]?.(place) ?? "The manifest isn't as it has to be.",
    TokenClash: "That didn't work out; ask once more.",
    TooMany: (kind, most) => `There are as many of the kind \u201c${KINDS[kind]}\u201d as there may be, ${most}.`,
    LongBody: "That is too much to be sent at once.",
    NoRoute: "This server doesn't know such a request.",
    Memory: "The server ran out of memory.",
    StoreFailed: "The server couldn't keep it, so nothing has changed.",
    SecretsFailed: "The server couldn't draw a secret, so nothing has changed.",
    StartFailed: "The grain's program couldn't be started.",
};

let me = null, apps = new Map(), names = new Map(), titles = new Map();

// The page itself.

const by = (id) => document.getElementById(id);

// An element with texts and elements in it; what others wrote comes into the page by this alone.
function made(tag, content = [], fields = {}) {
    const element = Object.assign(document.createElement(tag), fields);
    element.append(...[content].flat());
    return element;
}

// A button of a row, which says to those who only hear it what it is about.
function button(text, about, id, press, className = "") {
    const rest = made("span", ` ${about}`, {className: "away"});
    return made("button", [text, rest], {type: "button", id, className, onclick: press});
}

const buttonRow = (buttons) => made("div", buttons, {className: "buttons"});

function answerLine(id = "") {
    const line = made("p", [], {className: "answer", id});
    line.setAttribute("role", "status");
    return line;
}

function say(line, content, isBad = false) {
    line.replaceChildren(content);
    line.classList.toggle("bad", isBad);
}

// Says at the foot of the page what was done, where its row may have gone.
function tell(sentence, isBad = false) {
    say(by("said"), sentence, isBad);
    clearTimeout(tell.soon);
    tell.soon = setTimeout(say, 8000, by("said"), "");
}

// Does once at a time what a form or button is for, and says in its line what came of it.
async function act(line, work) {
    if (line.isBusy) return;
    line.isBusy = true;
    say(line, "");
    try {
        say(line, await work() ?? "");
    } catch (error) {
        if (error.message) say(line, error.message, true);
    }
    line.isBusy = false;
}

// Has a form do something, and gives it a line for what comes of that.
function onSubmit(name, work) {
    const form = by(`${name}-form`), line = answerLine(`${name}-answer`);
    form.append(line);
    form.onsubmit = (event) => {
        event.preventDefault();
        act(line, () => work(form));
    };
}

// Shows a dialog until it is closed. The focus goes back to where it was, or to what came in its place.
function shown(dialog, first = null) {
    const before = document.activeElement;
    dialog.returnValue = "";
    dialog.showModal();
    first?.focus();
    return new Promise((resolve) => dialog.onclose = () => {
        const after = before.isConnected ? before : by(before.id) ?? by(`${viewName()}-title`);
        after.focus();
        resolve(dialog.returnValue);
    });
}

async function isSure(question, text, word) {
    by("sure-title").textContent = question;
    by("sure-text").textContent = text;
    by("sure-yes").textContent = word;
    return await shown(by("sure"), by("sure-no")) === "yes";
}

function showSecret(title, help, text) {
    by("secret-title").textContent = title;
    by("secret-help").textContent = help;
    by("secret-text").textContent = text;
    say(by("secret-answer"), "");
    return shown(by("secret"), by("secret-copy")).then(() => by("secret-text").textContent = "");
}

async function copySecret() {
    try {
        await navigator.clipboard.writeText(by("secret-text").textContent);
        return "Copied.";
    } catch {
        getSelection().selectAllChildren(by("secret-text"));
        return "It is selected now; copy it with Ctrl+C or Command+C.";
    }
}

// Fills a list, and offers the rest of a long one. Rows that are as they were stay, with what is said in them; what
// has the focus keeps it, or hands it to the list's heading.
function fill(list, rows, row, none) {
    const tag = list.tagName === "UL" ? "li" : "div";
    const held = list.contains(document.activeElement) ? document.activeElement : null;
    const before = new Map([...list.children].map((child) => [child.key, child]));
    const more = made("button", "Show more", {type: "button"});
    const last = made(tag, more, {className: "more"});
    const shownRow = (data) => {
        const key = JSON.stringify(data);
        return Object.assign(before.get(key) ?? row(data), {key});
    };
    const grow = (most) => {
        const next = rows.slice(list.count, most).map(shownRow);
        list.append(...next);
        list.count += next.length;
        if (list.count < rows.length) list.append(last);
        else last.remove();
        return next;
    };
    const most = Math.max(SHOWN, list.count ?? 0);
    more.onclick = () => grow(list.count + SHOWN)[0].querySelector("button")?.focus();
    list.replaceChildren();
    list.count = 0;
    grow(most);
    if (rows.length === 0) list.append(made(tag, none, {className: "quiet plain"}));
    if (held === null) return;
    const after = held.isConnected ? held : by(held.id) ?? by(`${list.id}-title`) ?? by(`${viewName()}-title`);
    after.focus();
}

// Words.

const grainName = (grain) => titles.has(grain) ? quoted(titles.get(grain)) : `grain ${grain}`;
const appTitle = (app) => apps.get(app)?.title ?? `application ${app}`;
const facts = (...words) => made("p", words.filter(Boolean).join(" \u00b7 "), {className: "quiet"});
const quoted = (text) => `\u201c${text}\u201d`;
const capital = (text) => text[0].toUpperCase() + text.slice(1);

function person(handle) {
    if (handle === me?.handle) return "you";
    return names.has(handle) ? `${names.get(handle)} (${handle})` : String(handle);
}

function time(moment) {
    if (moment >= LAST_DAY) return "after the year 9999";
    return new Date(moment * 1000).toLocaleString([], {dateStyle: "medium", timeStyle: "short"});
}

function refusalWords(path, {error, of = []}) {
    const field = FIELDS[path.split("/").at(-1)]?.[of[0] - 1];
    if (error === "BadBody" && field) return `The ${field} isn't as it has to be.`;
    const words = Object.hasOwn(WORDS, error) ? WORDS[error] : `The server says: ${error}.`;
    return typeof words === "string" ? words : words(...of);
}

// Who or what a grant goes to: an account, whoever has a link or token, or a grain that was given it by the powerbox.
function targetWords(target) {
    if (typeof target === "string") return `a ${target}`;
    return target.account === undefined ? grainName(target.grain) : person(target.account);
}

function giverWords(giver) {
    if (giver === "site") return "the server itself";
    return giver.account === undefined ? `way of grant ${giver.grant}` : person(giver.account);
}

const roleWords = (role) => role === null ? "no role" : role === "all" ? "all access" : role.title;

// An item of a report: who holds, or would lose, what.
function holderWords({account, handle, grant, entry, permissions}, grants = new Map()) {
    const kind = grants.has(grant) ? targetWords(grants.get(grant).to) : "a link or token";
    const who = account === undefined ? `Whoever has ${kind} (grant ${grant})` : person(handle);
    const what = [entry && "entry", ...permissions].filter(Boolean).join(", ");
    return `${capital(who)}: ${what || "nothing"}`;
}

// Requests.

async function ask(path, fields = {}) {
    const login = sessionStorage.getItem(KEPT);
    let response = null, answer = null;
    try {
        const headers = {Authorization: `Bearer ${login}`};
        response = await fetch(path, {method: "POST", cache: "no-store", headers, body: JSON.stringify(fields)});
        answer = await response.json();
    } catch {
        const sentence = response ? `The server's answer can't be read (${response.status}).`
            : "The server can't be reached at the moment.";
        throw new Error(sentence);
    }
    if (sessionStorage.getItem(KEPT) !== login) throw new Error("");
    if (response.ok) return answer;
    if (response.status === 401 && path !== "/redeem") {
        leave("This login is worth nothing, or no more. Sign in with another one.", true);
        throw new Error("");
    }
    throw Object.assign(new Error(refusalWords(path, answer)), {isNoRoute: answer.error === "NoRoute"});
}

// All rows of a list, which come in answers of 1,000 at most.
async function rowsOf(path, key, number) {
    const rows = [];
    let page = (await ask(path))[key];
    while (page.length === MOST) {
        rows.push(...page);
        page = (await ask(path, {after: page.at(-1)[number]}))[key];
    }
    return rows.concat(page);
}

// The same of a list that a server may not have, and then null; these parts of the page are seen where it is there.
async function rowsOrNone(path, key, number, ...parts) {
    let rows = null;
    try {
        rows = await rowsOf(path, key, number);
    } catch (error) {
        if (!error.isNoRoute) throw error;
    }
    for (const part of parts) by(part).hidden = rows === null;
    return rows;
}

async function loadApps() {
    apps = new Map((await rowsOf("/apps/list", "apps", "app")).map((app) => [app.app, app]));
}

async function loadAccounts() {
    const accounts = await rowsOf("/accounts/list", "accounts", "account");
    names = new Map(accounts.map((account) => [account.handle, account.name]));
    loadAccounts.numbers = new Map(accounts.map((account) => [account.handle, account.account]));
    by("handles").replaceChildren(...accounts.filter((account) => account.enabled && account.handle !== me.handle)
        .map((account) => made("option", account.name, {value: account.handle})));
    return accounts;
}

async function loadMine() {
    const grains = await rowsOf("/mine", "grains", "grain");
    titles = new Map(grains.map((grain) => [grain.grain, grain.title]));
    return grains;
}

// Signing in and out, and the views.

const VIEWS = {grains: showGrains, account: showAccount, admin: showAdmin};

function viewName() {
    const name = location.hash.slice(1);
    if (me === null) return "login";
    return Object.hasOwn(VIEWS, name) && (name !== "admin" || me.admin) ? name : "grains";
}

function showFrame() {
    const name = viewName();
    for (const view of ["login", ...Object.keys(VIEWS)]) by(`view-${view}`).hidden = view !== name;
    for (const link of by("views").querySelectorAll("a")) {
        if (link.hash.slice(1) === name) link.setAttribute("aria-current", "page");
        else link.removeAttribute("aria-current");
    }
    by("views").hidden = me === null;
    by("to-admin").hidden = !me?.admin;
    by("who").textContent = me ? `${me.name} (${me.handle})${me.admin ? ", an admin" : ""}` : "";
    const title = me ? by("views").querySelector("[aria-current]").textContent : "Sign in";
    document.title = `${title} - Lumbyte`;
}

// One after another, so that what is shown last is what was asked last.
const show = () => show.last = show.last.then(() => act(by("view-answer"), () => VIEWS[viewName()]?.()));
show.last = Promise.resolve();

async function enter() {
    by("again").hidden = true;
    try {
        [me] = (await ask("/me")).accounts;
    } catch (error) {
        by("again").hidden = sessionStorage.getItem(KEPT) === null;
        showFrame();
        throw error;
    }
    showFrame();
    by(`${viewName()}-title`).focus();
    await act(by("view-answer"), () => loadAccounts().then(() => ""));
    await show();
}

// Forgets the login and all that came with it.
function leave(sentence, isBad = false) {
    sessionStorage.removeItem(KEPT);
    me = null;
    apps = names = titles = new Map();
    for (const dialog of document.querySelectorAll("dialog[open]")) dialog.close();
    for (const form of document.forms) form.reset();
    for (const element of document.querySelectorAll(CLEARED)) element.replaceChildren();
    showFrame();
    by("again").hidden = true;
    by("login").focus();
    say(by("login-answer"), sentence, isBad);
}

// Comes in with a login that was kept, or asks for one.
function begin() {
    if (sessionStorage.getItem(KEPT) !== null) return act(by("login-answer"), enter);
    showFrame();
    by("login").focus();
}

// Grains.

// A tab that can't reach this page, and doesn't get a copy of the login. It is opened while the click counts.
function blankTab() {
    const login = sessionStorage.getItem(KEPT);
    sessionStorage.removeItem(KEPT);
    const tab = window.open("", "_blank");
    sessionStorage.setItem(KEPT, login);
    if (tab) tab.opener = null;
    return tab;
}

async function openGrain({grain, title}) {
    const tab = blankTab();
    try {
        const {key} = await ask(`/grains/${grain}/open`);
        const address = `${location.protocol}//ui-${key}.${BASE}/`;
        const link = {href: address, target: "_blank", rel: "noopener"};
        if (!tab) return made("a", `Open ${quoted(title)} in a tab`, link);
        tab.location.replace(address);
    } catch (error) {
        tab?.close();
        if (error.message) tell(error.message, true);
        throw error;
    }
    show();
}

async function moveGrain(grain, where, sentence) {
    await ask(`/grains/${grain}/${where}`);
    await showGrains();
    tell(sentence);
}

function grainRow(grain) {
    const {grain: n, title} = grain, isMine = grain.owner === me.handle, line = answerLine();
    const may = grain.permissions.length > 0 ? grain.permissions.join(", ") : "nothing but open it";
    const buttons = [
        button("Open", title, `open-${n}`, () => act(line, () => openGrain(grain)), "first"),
        button("Share", title, `share-${n}`, () => give(grain, false)),
        button("Make a link", `to ${title}`, `link-${n}`, () => give(grain, true)),
        button(isMine ? "Who has access" : "What I gave", title, `access-${n}`, () => showAccess(grain)),
    ];
    const trash = () => moveGrain(n, "trash", `${quoted(title)} is in the trash.`);
    if (isMine && grainRow.hasTrash) {
        buttons.push(button("Move to the trash", title, `trash-${n}`, () => act(line, trash)));
    }
    const words = [appTitle(grain.app), `owner: ${person(grain.owner)}`, `you may: ${may}`];
    const about = facts(...words, grain.running ? "running" : "not running");
    return made("li", [made("h3", title), about, buttonRow(buttons), line]);
}

function trashRow({app, grain, title}) {
    const line = answerLine();
    const out = () => moveGrain(grain, "untrash", `${quoted(title)} was taken out of the trash.`);
    const buttons = button("Take out", title, `untrash-${grain}`, () => act(line, out));
    return made("li", [made("h3", title), facts(appTitle(app)), buttonRow(buttons), line]);
}

function ownerGroup([owner, grains]) {
    const list = made("ul", [], {className: "list", id: `of-${owner}`});
    fill(list, grains, grainRow, "");
    return made("section", [made("h3", `Of ${person(owner)}`), list], {className: "group"});
}

function byOwner(grains) {
    const groups = new Map();
    for (const grain of grains) groups.set(grain.owner, [...groups.get(grain.owner) ?? [], grain]);
    return [...groups].sort(([one], [other]) => one < other ? -1 : 1);
}

async function showGrains() {
    await loadApps();
    const grains = await loadMine();
    const trash = await rowsOrNone("/mine/trash", "grains", "grain", "trash-title", "trash");
    grainRow.hasTrash = trash !== null;
    const chosen = by("make-app").value;
    by("make-app").replaceChildren(...[...apps.values()].map((app) => made("option", app.title, {value: app.app})));
    if (apps.has(Number(chosen))) by("make-app").value = chosen;
    by("making").hidden = apps.size === 0;
    fill(by("mine"), grains.filter((grain) => grain.owner === me.handle), grainRow, "You have no grains yet.");
    fill(by("shared"), byOwner(grains.filter((grain) => grain.owner !== me.handle)), ownerGroup, "Nothing yet.");
    if (trash) fill(by("trash"), trash, trashRow, "The trash is empty.");
}

onSubmit("make", async (form) => {
    const title = by("make-title").value;
    await ask("/grains", {app: Number(by("make-app").value), title});
    form.reset();
    await showGrains();
    return `${quoted(title)} was made, and is above.`;
});

onSubmit("redeem", async (form) => {
    try {
        await ask("/redeem", {token: by("redeem-token").value.trim()});
    } catch (error) {
        // (an unknown link is refused as an unknown login is)
        await ask("/me");
        throw error;
    }
    form.reset();
    await showGrains();
    return "It is among the grains that are shared with you.";
});

// Sharing.

let given = null;

function give(grain, isLink) {
    const roles = (apps.get(grain.app)?.roles ?? []).map((role, place) => ({...role, place}));
    const offered = roles.filter((role) => !role.obsolete).map((role) => [role.title, role.place]);
    const options = [...offered, ["All that I have", "all"]];
    given = {grain, isLink};
    by("give-form").reset();
    say(by("give-answer"), "");
    by("give-title").textContent = isLink ? `A link to ${quoted(grain.title)}` : `Share ${quoted(grain.title)}`;
    by("give-do").textContent = isLink ? "Make the link" : "Share";
    by("give-whom").hidden = isLink;
    by("give-to").required = !isLink;
    by("give-role").replaceChildren(...options.map(([text, value]) => made("option", text, {value})));
    shown(by("give"));
}

function fieldsGiven() {
    const base = by("give-role").value, until = by("give-until").value;
    const fields = {assignment: {base: base === "all" ? base : Number(base)}};
    if (until === "") return fields;
    const expires = Math.floor(new Date(until).getTime() / 1000);
    if (!(expires > Date.now() / 1000)) throw new Error(WORDS.PastMoment);
    return {...fields, expires};
}

async function makeLink(grain, fields) {
    const {token} = await ask(`/grains/${grain.grain}/link`, fields);
    by("give").close();
    const help = "Whoever has this token may take it under \u201cI was given a link\u201d. It is shown this once.";
    await showSecret(`The link to ${quoted(grain.title)}`, help, token);
}

onSubmit("give", async (form) => {
    const {grain, isLink} = given, fields = fieldsGiven();
    if (isLink) return makeLink(grain, fields);
    const handle = by("give-to").value.trim();
    if (!loadAccounts.numbers.has(handle)) await loadAccounts();
    const to = loadAccounts.numbers.get(handle);
    if (to === undefined) throw new Error("There is no account of that handle.");
    await ask(`/grains/${grain.grain}/share`, {to, ...fields});
    form.reset();
    by("give-to").focus();
    return `Shared with ${person(handle)}.`;
});

// Who has access, and grants.

async function showAccess(grain) {
    const isMine = grain.owner === me.handle, title = quoted(grain.title);
    by("access-title").textContent = isMine ? `Access to ${title}` : `What I gave of ${title}`;
    by("grants-title").textContent = isMine ? "What was given" : "Given by me";
    by("access-owner").hidden = !isMine;
    by("access-list").replaceChildren();
    by("grants").replaceChildren();
    shown(by("access"), by("access-title"));
    const load = async () => {
        const path = `/grains/${grain.grain}`;
        const grants = await rowsOf(`${path}/shares`, "grants", "grant");
        const access = isMine ? (await ask(`${path}/access`)).access : [];
        const known = new Map(grants.map((grant) => [grant.grant, grant]));
        fill(by("access-list"), access, (item) => made("li", holderWords(item, known)), "Nobody.");
        const row = (grant) => grantRow({...grant, grain: grain.grain}, known, false, async (sentence) => {
            await load();
            say(by("access-answer"), sentence);
        });
        fill(by("grants"), grants, row, "Nothing.");
    };
    act(by("access-answer"), load);
}

// A grant, and what would go with it. `done` shows the list anew with a sentence.
function grantRow(grant, known, withGrain, done) {
    const line = answerLine(), box = made("div");
    const title = `${capital(targetWords(grant.to))}, as ${roleWords(grant.role)}`;
    const id = `preview-${withGrain ? "gave-" : ""}${grant.grant}`;
    const hasEnded = grant.expires <= Date.now() / 1000;
    const until = grant.expires && `${hasEnded ? "ended" : "until"} ${time(grant.expires)}`;
    const needs = grant.needs > 0 && `${grant.needs} further ${grant.needs === 1 ? "need" : "needs"}`;
    const about = facts(
        withGrain && grainName(grant.grain), `grant ${grant.grant}`, `given by ${giverWords(grant.by)}`,
        grant.changed && "with changes", until, needs, grant.revoked && "revoked",
    );
    const preview = button("What would go?", title, id, () => act(line, async () => {
        const {losses} = await ask(`/grants/${grant.grant}/preview`);
        box.replaceChildren(lossBox(grant, losses, known, line, done, () => {
            box.replaceChildren();
            preview.focus();
        }));
        box.querySelector("p").focus();
    }));
    const row = made("li", [made("h4", title), about]);
    if (grant.revoked) row.className = "gone";
    else row.append(buttonRow(preview), box, line);
    return row;
}

// What revoking a grant would take, with the button that does it.
function lossBox(grant, losses, known, line, done, close) {
    const place = (loss) => loss.grain === grant.grain ? "" : ` on ${grainName(loss.grain)}`;
    const words = (loss) => holderWords(loss, known) + place(loss);
    const list = made("ul", [], {className: "lines"});
    const head = losses.length > 0 ? "Revoking it would take:" : "Revoking it would take nothing from anybody now.";
    if (losses.length > 0) fill(list, losses, (loss) => made("li", words(loss)), "");
    const revoke = async () => {
        await ask(`/grants/${grant.grant}/revoke`);
        await done(`Grant ${grant.grant} was revoked.`);
    };
    const buttons = [
        button("Revoke", `grant ${grant.grant}`, "", () => act(line, revoke), "bad"),
        button("Leave it", `grant ${grant.grant}`, "", close),
    ];
    const title = made("p", head, {tabIndex: -1});
    return made("div", [title, list, buttonRow(buttons)], {className: "loss"});
}

// One's own account.

function sessionRow({grain, session}) {
    const line = answerLine();
    const close = () => act(line, async () => {
        await ask(`/sessions/${session}/close`);
        await showAccount();
        tell("The session is closed.");
    });
    const about = facts(`session ${session}`);
    const buttons = [button("Close", `session ${session}`, `close-${session}`, close)];
    return made("li", [made("h3", capital(grainName(grain))), about, buttonRow(buttons), line]);
}

async function showAccount() {
    by("my-name").textContent = me.name;
    by("my-facts").textContent = `handle ${me.handle}, account ${me.account}${me.admin ? ", an admin" : ""}`;
    await loadMine();
    const sessions = await rowsOrNone("/mine/sessions", "sessions", "session", "sessions-part");
    if (sessions) fill(by("sessions"), sessions, sessionRow, "None is open.");
    const grants = await rowsOrNone("/mine/grants", "grants", "grant", "gave-part");
    if (!grants) return;
    const known = new Map(grants.map((grant) => [grant.grant, grant]));
    const row = (grant) => grantRow(grant, known, true, async (sentence) => {
        await showAccount();
        tell(sentence);
    });
    fill(by("gave"), grants, row, "You gave nothing yet.");
}

// A new login of one's own, which is used from then on.
async function renew(path) {
    const {token} = await ask(path);
    sessionStorage.setItem(KEPT, token);
    const help = "The old one is worth nothing from now on. This one is shown this once.";
    await showSecret("Your new login", help, token);
}

by("new-login").onclick = () => act(by("my-answer"), async () => {
    const text = "The old one is worth nothing from then on, everywhere. The new one is shown once.";
    if (await isSure("Make a new login?", text, "New login")) await renew("/login");
});

// Administration.

function accountRow(account) {
    const {account: n, admin, enabled, handle, name} = account, isMine = n === me.account, line = answerLine();
    const set = (mark, on) => act(line, async () => {
        const text = "Only another admin can undo it.";
        if (isMine && !on && !await isSure("Change your own account?", text, "Change it")) return;
        await ask(`/accounts/${n}/${mark}`, {on});
        if (isMine) [me] = (await ask("/me")).accounts;
        showFrame();
        await VIEWS[viewName()]();
        tell(`The account of ${name} was changed.`);
    });
    const renewed = () => act(line, async () => {
        const text = "The old one is worth nothing from then on. The new one is shown once.";
        if (!await isSure(`Make a new login for ${name}?`, text, "New login")) return;
        if (isMine) return renew(`/accounts/${n}/login`);
        const {token} = await ask(`/accounts/${n}/login`);
        await showSecret(`The new login of ${name}`, "It is shown this once. Hand it to nobody else.", token);
    });
    const buttons = [
        button(enabled ? "Disable" : "Enable", name, `enabled-${n}`, () => set("enabled", !enabled)),
        button(admin ? "Make no admin" : "Make an admin", name, `admin-${n}`, () => set("admin", !admin)),
        button("New login", `for ${name}`, `login-${n}`, renewed),
    ];
    const about = facts(handle, `account ${n}`, admin && "admin", !enabled && "disabled", isMine && "you");
    const row = made("li", [made("h3", name), about, buttonRow(buttons), line]);
    if (!enabled) row.className = "gone";
    return row;
}

function appRow(app) {
    const permissions = app.permissions.join(", ") || "none";
    const roles = app.roles.map((role) => role.title).join(", ") || "none";
    const about = facts(`application ${app.app}`, `version ${app.version}`);
    const more = facts(`roles: ${roles}`, `permissions: ${permissions}`);
    return made("li", [made("h3", app.title), about, more]);
}

async function showAdmin() {
    fill(by("accounts"), await loadAccounts(), accountRow, "There are none.");
    await loadApps();
    fill(by("apps"), [...apps.values()], appRow, "There are none yet.");
}

onSubmit("add", async (form) => {
    const name = by("add-name").value;
    const {token} = await ask("/accounts", {handle: by("add-handle").value, name});
    form.reset();
    await showSecret(`The login of ${name}`, "It is shown this once. Hand it to nobody else.", token);
    await showAdmin();
    return `The account of ${name} was added.`;
});

onSubmit("app", async (form) => {
    let manifest = null;
    try {
        manifest = JSON.parse(by("app-text").value);
    } catch {
        throw new Error("This text is no JSON.");
    }
    const {app} = await ask("/apps", manifest);
    form.reset();
    await showAdmin();
    return `It was added as application ${app}. Its program has to be put in place on the server.`;
});

by("app-file").onchange = () => act(by("app-answer"), async () => {
    const [file] = by("app-file").files;
    if (file) by("app-text").value = await file.text();
});

// What is pressed.

onSubmit("login", async (form) => {
    const login = by("login").value.trim();
    if (!/^[\x21-\x7e]+$/.test(login)) throw new Error("This is no login.");
    sessionStorage.setItem(KEPT, login);
    form.reset();
    await enter();
});

by("leave").onclick = () => leave("You are signed out. Grains that are open in tabs stay open.");
by("again").onclick = () => act(by("login-answer"), enter);
by("give-close").onclick = () => by("give").close();
by("access-close").onclick = () => by("access").close();
by("secret-copy").onclick = () => act(by("secret-answer"), copySecret);
by("secret-done").onclick = () => by("secret").close();
by("secret").oncancel = (event) => event.preventDefault();
by("sure-yes").onclick = () => by("sure").close("yes");
by("sure-no").onclick = () => by("sure").close();
window.onhashchange = () => {
    showFrame();
    by(`${viewName()}-title`).focus();
    show();
};
document.addEventListener("visibilitychange", () => {
    if (document.visibilityState === "visible" && me !== null) show();
});
begin();
"##;
