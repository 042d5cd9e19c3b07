//! What the page shows: its text and its style, up to the script, and what is behind that.

/// The page up to its script.
pub const FRONT: &str = r##"<!DOCTYPE html>
<html lang="en">
<head>
<meta charset="utf-8">
<meta name="viewport" content="width=device-width, initial-scale=1">
<meta name="referrer" content="no-referrer">
<title>Lumbyte</title>
<link rel="icon" href="data:,">
<style>
:root { color-scheme: light dark; --back: #f4f5f3; --card: #ffffff; --text: #1c1e1d; --quiet: #5b605d; }
:root { --line: #d5d9d5; --accent: #1d6650; --on-accent: #ffffff; --bad: #a02020; }
@media (prefers-color-scheme: dark) {
    :root { --back: #171918; --card: #212423; --text: #ebedeb; --quiet: #a6aba8; }
    :root { --line: #3c413e; --accent: #8fd3ba; --on-accent: #0d2a20; --bad: #ff9f96; }
}
* { box-sizing: border-box; overflow-wrap: anywhere; }
[hidden] { display: none !important; }
html { scroll-padding-bottom: 4rem; }
body { margin: 0 auto; max-width: 48rem; padding: 1rem 1rem 5rem; font: 1rem/1.5 system-ui, sans-serif; }
body { background: var(--back); color: var(--text); }
header { position: relative; }
h1 { margin: 0; font-size: 1.6rem; line-height: 2.75rem; }
h2 { margin: 2rem 0 0.5rem; font-size: 1.25rem; }
h3, h4 { margin: 0; font-size: 1.05rem; }
p { margin: 0.25rem 0; }
ul { margin: 0; padding: 0; list-style: none; }
nav { display: flex; flex-wrap: wrap; align-items: center; gap: 0.25rem 1.25rem; margin-top: 0.75rem; }
nav { border-bottom: 1px solid var(--line); padding-bottom: 0.5rem; }
nav a { padding: 0.5rem 0; color: var(--accent); }
nav a[aria-current] { color: var(--text); font-weight: 600; text-decoration: none; }
nav button { position: absolute; inset: 0 0 auto auto; }
.list > li, .plain, details { margin: 0.75rem 0; padding: 0.9rem 1rem; background: var(--card); }
.list > li, .plain, details { border: 1px solid var(--line); border-radius: 0.5rem; }
.list > .more { padding: 0; border: 0; background: none; }
.lines li { padding: 0.4rem 0; border-bottom: 1px solid var(--line); }
.group { margin: 1rem 0 0; }
summary { cursor: pointer; font-weight: 600; }
.quiet { color: var(--quiet); font-size: 0.9rem; }
.gone h3, .gone h4 { color: var(--quiet); font-weight: 400; }
.buttons { display: flex; flex-wrap: wrap; gap: 0.5rem; margin-top: 0.6rem; }
label { display: block; margin: 0.75rem 0; font-weight: 600; }
input, select, textarea { display: block; width: 100%; min-height: 2.75rem; margin-top: 0.25rem; padding: 0.5rem; }
input, select, textarea { background: var(--back); color: var(--text); border: 1px solid var(--quiet); }
input, select, textarea, button { border-radius: 0.5rem; font: inherit; font-weight: 400; }
textarea { resize: vertical; font-family: ui-monospace, monospace; font-size: 0.9rem; }
button { min-height: 2.75rem; padding: 0.4rem 1rem; cursor: pointer; }
button { background: transparent; color: var(--accent); border: 1px solid var(--accent); }
button.first { background: var(--accent); color: var(--on-accent); }
button.bad { color: var(--bad); border-color: var(--bad); }
:focus-visible { outline: 3px solid var(--accent); outline-offset: 2px; }
[tabindex='-1']:focus { outline: none; }
.answer:empty { display: none; }
.answer { margin-top: 0.6rem; }
p.bad { color: var(--bad); font-weight: 600; }
.loss { margin-top: 0.75rem; padding-left: 1rem; border-left: 4px solid var(--bad); }
code { display: block; margin: 0.75rem 0; padding: 0.75rem; background: var(--back); border: 1px solid var(--line); }
@media (max-width: 30rem) { .buttons button { padding: 0.4rem 0.7rem; } }
dialog { width: min(40rem, calc(100vw - 1.5rem)); max-height: calc(100vh - 1.5rem); padding: 1.25rem; }
dialog { background: var(--card); color: var(--text); border: 1px solid var(--line); border-radius: 0.5rem; }
dialog::backdrop { background: #0008; }
dialog h2 { margin: 0 0 0.5rem; }
dialog h3 { margin: 1.5rem 0 0; }
dialog .list > li { background: var(--back); }
.away { position: absolute; width: 1px; height: 1px; overflow: hidden; clip-path: inset(50%); white-space: nowrap; }
.bar { position: fixed; inset: auto 0 0 0; margin: 0; padding: 0.75rem 1rem; text-align: center; }
.bar { background: var(--card); border-top: 1px solid var(--line); }
.bar:empty { display: none; }
</style>
</head>
<body>
<header>
    <h1>Lumbyte</h1>
    <p class="quiet" id="who"></p>
    <nav aria-label="Views" id="views" hidden>
        <a href='#grains'>Grains</a>
        <a href='#account'>My account</a>
        <a href='#admin' id="to-admin">Administration</a>
        <button type="button" id="leave">Sign out</button>
    </nav>
</header>
<main>
    <noscript><p>This page needs JavaScript.</p></noscript>
    <p class="answer" id="view-answer" role="status"></p>
    <section id="view-login" aria-labelledby="login-title" hidden>
        <h2 id="login-title" tabindex="-1">Sign in</h2>
        <form class="plain" id="login-form">
            <label>Login
                <input id="login" type="password" autocomplete="off" spellcheck="false" required
                    aria-describedby="login-help"></label>
            <p class="quiet" id="login-help">The token of your account. This page keeps it until you sign out or close
            the tab.</p>
            <div class="buttons"><button class="first">Sign in</button>
                <button type="button" id="again" hidden>Try again</button></div>
        </form>
    </section>
    <section id="view-grains" aria-labelledby="grains-title" hidden>
        <h2 id="grains-title" tabindex="-1">My grains</h2>
        <p class="quiet">A grain is one document of an application: its notes, its poll, its files.</p>
        <ul class="list" id="mine"></ul>
        <details id="making">
            <summary>Make a grain</summary>
            <form id="make-form">
                <label>Application <select id="make-app" required></select></label>
                <label>Title <input id="make-title" maxlength="200" autocomplete="off" required></label>
                <div class="buttons"><button class="first">Make it</button></div>
            </form>
        </details>
        <h2 id="shared-title" tabindex="-1">Shared with me</h2>
        <div id="shared"></div>
        <details id="redeeming">
            <summary>I was given a link</summary>
            <form id="redeem-form">
                <label>Token of the link
                    <input id="redeem-token" autocomplete="off" spellcheck="false" required></label>
                <div class="buttons"><button class="first">Take it</button></div>
            </form>
        </details>
        <h2 id="trash-title" tabindex="-1">Trash</h2>
        <ul class="list" id="trash"></ul>
    </section>
    <section id="view-account" aria-labelledby="account-title" hidden>
        <h2 id="account-title" tabindex="-1">My account</h2>
        <div class="plain">
            <h3 id="my-name"></h3>
            <p class="quiet" id="my-facts"></p>
            <p>A new login takes the place of yours, should somebody else know that.</p>
            <div class="buttons"><button type="button" id="new-login">New login</button></div>
            <p class="answer" id="my-answer" role="status"></p>
        </div>
        <div id="sessions-part">
            <h2 id="sessions-title" tabindex="-1">Open sessions</h2>
            <p class="quiet">Each is a grain in a tab. One that is closed here is refused there.</p>
            <ul class="list" id="sessions"></ul>
        </div>
        <div id="gave-part">
            <h2 id="gave-title" tabindex="-1">What I gave</h2>
            <ul class="list" id="gave"></ul>
        </div>
    </section>
    <section id="view-admin" aria-labelledby="admin-title" hidden>
        <h2 id="admin-title" tabindex="-1">Accounts</h2>
        <details id="adding">
            <summary>Add an account</summary>
            <form id="add-form">
                <label>Handle
                    <input id="add-handle" pattern="[a-z][a-z0-9_]{0,31}" autocomplete="off" autocapitalize="none"
                        spellcheck="false" required aria-describedby="add-help"></label>
                <p class="quiet" id="add-help">1 to 32 small letters, digits and underscores, a letter first.</p>
                <label>Name <input id="add-name" maxlength="200" autocomplete="off" required></label>
                <div class="buttons"><button class="first">Add it</button></div>
            </form>
        </details>
        <ul class="list" id="accounts"></ul>
        <h2 id="apps-title" tabindex="-1">Applications</h2>
        <details id="installing">
            <summary>Add an application</summary>
            <form id="app-form">
                <label>A manifest's file <input type="file" id="app-file" accept=".json,application/json"></label>
                <label>Or its text <textarea id="app-text" rows="8" spellcheck="false" required></textarea></label>
                <div class="buttons"><button class="first">Add it</button></div>
            </form>
        </details>
        <ul class="list" id="apps"></ul>
    </section>
</main>
<dialog id="give" aria-labelledby="give-title">
    <h2 id="give-title"></h2>
    <form id="give-form">
        <label id="give-whom">Handle of the account
            <input id="give-to" list="handles" autocomplete="off" autocapitalize="none" spellcheck="false"></label>
        <datalist id="handles"></datalist>
        <label>Role <select id="give-role"></select></label>
        <label>Until, in your local time (may be left empty) <input id="give-until" type="datetime-local"></label>
        <div class="buttons"><button class="first" id="give-do"></button>
            <button type="button" id="give-close">Close</button></div>
    </form>
</dialog>
<dialog id="access" aria-labelledby="access-title">
    <h2 id="access-title" tabindex="-1"></h2>
    <div id="access-owner">
        <h3>Who has access now</h3>
        <ul class="lines" id="access-list"></ul>
    </div>
    <h3 id="grants-title" tabindex="-1"></h3>
    <p class="answer" id="access-answer" role="status"></p>
    <ul class="list" id="grants"></ul>
    <div class="buttons"><button type="button" class="first" id="access-close">Close</button></div>
</dialog>
<dialog id="secret" aria-labelledby="secret-title">
    <h2 id="secret-title"></h2>
    <p id="secret-help"></p>
    <code id="secret-text" tabindex="0"></code>
    <div class="buttons"><button type="button" class="first" id="secret-copy">Copy</button>
        <button type="button" id="secret-done">Done</button></div>
    <p class="answer" id="secret-answer" role="status"></p>
</dialog>
<dialog id="sure" aria-labelledby="sure-title" aria-describedby="sure-text">
    <h2 id="sure-title"></h2>
    <p id="sure-text"></p>
    <div class="buttons"><button type="button" id="sure-yes"></button>
        <button type="button" class="first" id="sure-no">Leave it</button></div>
</dialog>
<p class="bar" id="said" role="status"></p>
<script>"##;

/// The page behind its script.
pub const END: &str = r##"</script>
</body>
</html>
"##;
