//! The texts that `--help` prints.

/// What the program is, in one line.
pub const PROGRAM: &str = "Compiles SELinux policy modules and answers what the policy allows";

/// What the program is.
pub const PROGRAM_LONG: &str = "Compiles SELinux policy modules and answers what the policy allows.

Modules are texts in the Common Intermediate Language (CIL). cilhost acts as one host: it installs
modules, compiles them into a policy, and then answers which permissions a process in one security
context has on an object in another. The answers do not depend on the order of the modules.

cilhost accepts the statements type, class, common, classcommon, role, user, roletype, userrole,
roleallow, constrain, allow, auditallow, dontaudit, neverallow, boolean and booleanif; block,
blockabstract, blockinherit, macro, call and optional; typealias, typealiasactual, typeattribute,
typeattributeset, roleattribute, roleattributeset, userattribute and userattributeset; classmap,
classmapping, classpermission and classpermissionset; and of levels (MLS) mls, sensitivity,
sensitivityalias, sensitivityaliasactual, sensitivityorder, sensitivitycategory, category,
categoryalias, categoryaliasactual, categoryorder, categoryset, level, levelrange, userrange and
mlsconstrain. Of typetransition, typechange, typemember, roletransition, rangetransition, userlevel,
expandtypeattribute and classorder the names and levels are checked, and they have no effect.
Statements that label files, ports and the like, such as filecon, and settings, such as policycap,
are accepted and have no effect. It refuses everything else in CIL by name, with fault 22.";

/// How the program is called.
pub const EXAMPLE: &str = "Example:
  printf 'LOAD\\nAV u:r:a u:r:b file\\nQUIT\\n' | cilhost session base.cil app.cil

`cilhost check FILE..` says by its exit status whether a policy is accepted. `cilhost session
--help` describes the requests of a session, and what the numbers in its replies mean. `cilhost
compile --out T FILE..` writes the compiled policy to T, and `cilhost decide --tables T` asks it.";

/// What a session does, in one line.
pub const SESSION: &str = "Installs files, then answers requests from standard input";

/// What a session does.
pub const SESSION_LONG: &str = "Installs files, then answers requests from standard input.

The FILEs are installed from left to right. Then requests are read from standard input, one a line,
and each reply is written to standard output, until QUIT or the end of the input.

Decisions are kept for queries that come again: N of them at most, the latest ones. They take some
650 bytes each. No reply depends on N. Another number than 1 to 65536 is a wrong argument.

A FILE may have the statements type, class, common, classcommon, role, user, roletype, userrole,
roleallow, constrain, allow, auditallow, dontaudit, neverallow, boolean and booleanif; block,
blockabstract, blockinherit, macro, call and optional; typealias, typealiasactual, typeattribute,
typeattributeset, roleattribute, roleattributeset, userattribute and userattributeset; classmap,
classmapping, classpermission and classpermissionset; and of levels (MLS) mls, sensitivity,
sensitivityalias, sensitivityaliasactual, sensitivityorder, sensitivitycategory, category,
categoryalias, categoryaliasactual, categoryorder, categoryset, level, levelrange, userrange and
mlsconstrain. Of typetransition, typechange, typemember, roletransition, rangetransition, userlevel,
expandtypeattribute and classorder the names and levels are checked, and they have no effect.
Statements that label files, ports and the like, such as filecon, and settings, such as policycap,
are accepted and have no effect. LOAD refuses everything else in CIL by name, with fault 22.";

/// What a file is.
pub const FILE: &str = "A module, as text in CIL, of at most 4194304 bytes";

/// What a check does, in one line.
pub const CHECK: &str =
    "Installs files, loads them, and prints OK with a digest, or the faults of the policy";

/// What a check does.
pub const CHECK_LONG: &str =
    "Installs files, loads them, and prints OK with a digest, or the faults of the policy.

The FILEs are installed from left to right, and then loaded together. Standard output has the reply
of LOAD: OK LENGTH DIGEST, or FAULTS with how many there are, and a line for each. LENGTH and DIGEST
are the length in bytes and the SHA-256 of the compiled policy: hosts with the same modules print
the same line, in whatever order the modules came. A FILE that cannot be read as CIL ends the check
before that: standard error says which, and where. Standard input is not read.";

/// What a check prints, an example and the exit statuses.
pub const CHECK_MORE: &str =
    "Faults of a policy, one a line after FAULTS: NUMBER MODULE PLACE NAMESPACE WORD
  `cilhost session --help` describes these lines, what each number means, and how to get from MODULE
  and PLACE to a file and a line.

Example:
  $ cilhost check base.cil app.cil
  OK 159 d45931ea9f06a9ced7e809682adb159f8b38c8e71f6a219ba0a5eab997e73225

Exit status:
  0  the policy is accepted
  1  the policy is refused: standard output has its faults. Or a FILE was refused: standard error
     has its first fault, with its number and its place in bytes
  2  wrong arguments
  3  a file or standard output failed
  4  out of memory. If it was LOAD that ran out of memory, its reply is ERR 0";

/// What `compile` does, in one line.
pub const COMPILE: &str = "Installs files, compiles them, and writes the compiled policy to a file";

/// What `compile` does.
pub const COMPILE_LONG: &str =
    "Installs files, compiles them, and writes the compiled policy to a file.

The FILEs are installed from left to right, and then compiled together. If the policy is accepted,
its tables are written to T, in place of a file of this name that there may be. Standard output has
the reply of LOAD, as of `cilhost check`: OK LENGTH DIGEST, with the length in bytes and the SHA-256
of T, or FAULTS with how many there are, and a line for each. If a FILE or the policy is refused, T
is left as it was. The same modules give the same bytes, in whatever order they came. The subcommand
`cilhost decide` asks the tables of T. Standard input is not read.";

/// To which file tables are written.
pub const OUT: &str = "The file that the tables of the policy are written to";

/// An example of `compile` and the exit statuses.
pub const COMPILE_MORE: &str = "Example:
  $ cilhost compile --out policy.tables base.cil app.cil
  OK 159 d45931ea9f06a9ced7e809682adb159f8b38c8e71f6a219ba0a5eab997e73225
  $ sha256sum policy.tables
  d45931ea9f06a9ced7e809682adb159f8b38c8e71f6a219ba0a5eab997e73225  policy.tables

`cilhost session --help` describes the lines of faults, and what each number means.

Exit status:
  0  the policy is accepted, and T has its tables
  1  the policy is refused: standard output has its faults. Or a FILE was refused: standard error
     has its first fault, with its number and its place in bytes
  2  wrong arguments
  3  a file or standard output failed. If writing T failed, nothing is said of what T holds. If
     standard output failed, T may be written
  4  out of memory: T is left as it was, unless the system had no memory to write it. If it was the
     compilation that ran out of memory, standard output has ERR 0";

/// What `decide` does, in one line.
pub const DECIDE: &str = "Asks a compiled policy what a process may do to an object";

/// What `decide` does.
pub const DECIDE_LONG: &str = "Asks a compiled policy what a process may do to an object.

PATH is a file that `cilhost compile` wrote. Standard output has what a process in the context
SOURCE may do to an object of CLASS in the context TARGET, while each boolean of the policy has its
default: the reply of AV, which is OK, then the permissions that are allowed, those audited when
allowed, and those audited when denied (- for none), or ERR and a number. Standard input is not
read.";

/// Which tables are asked.
pub const TABLES: &str = "A file that `cilhost compile` wrote, of at most 1073741824 bytes";

/// The source of a query.
pub const SOURCE: &str = "The context of the process, as in user:role:type";

/// The target of a query.
pub const TARGET: &str = "The context of the object";

/// The class of a query.
pub const CLASS: &str = "The class of the object";

/// An example of `decide`, its numbers and the exit statuses.
pub const DECIDE_MORE: &str = "Example:
  $ cilhost decide --tables policy.tables u:r:a u:r:b file
  OK read - open,read

Numbers after ERR:
  72 1      SOURCE is not a valid context
  72 2      TARGET is not a valid context
  73        there is no class CLASS
  91 to 96  PATH is not a compiled policy. 91: it does not begin as one. 92: it has another layout.
            93: it is cut off. 94: what is in it is not in order. 95: a number, name or count is
            out of range. 96: bytes follow its end

Exit status:
  0  standard output has the permissions
  1  standard output has ERR and a number
  2  wrong arguments
  3  PATH or standard output failed, or PATH is longer than 1073741824 bytes
  4  out of memory";

/// What `locate` does, in one line.
pub const LOCATE: &str = "Says of each fault of a policy the file, the line and the column";

/// What `locate` does.
pub const LOCATE_LONG: &str = "Says of each fault of a policy the file, the line and the column.

The FILEs are loaded together, as by `cilhost check`. Standard output has for each fault a line
FILE:LINE:COLUMN: NUMBER: SENTENCE: WORD, in the order of the FILEs and then of places, and behind
it the line of the source with a mark under the word. Lines and columns count from 1, columns in
bytes. A fault whose namespace is not the global one says (in NAMESPACE). A fault of the whole
policy has policy: in place of FILE:LINE:COLUMN:. A FILE that cannot be read as CIL is reported in
the same form, and then nothing is loaded. Standard input is not read.";

/// What the flag `--optionals` asks for.
pub const OPTIONALS: &str = "If there is no fault, say which optionals are left out, and why";

/// What the option `--cache` asks for.
pub const CACHE: &str =
    "How many decisions to keep for queries that come again, from 1 to 65536 [default: 512]";

/// An example of `locate` and the exit statuses.
pub const LOCATE_MORE: &str = "Example:
  $ cilhost locate base.cil web.cil
  web.cil:12:12: 41: unresolved name: nobody (in web.app)
     12 |     (allow nobody self (file (read)))
        |            ^~~~~~
  cilhost: 1 fault in 1 of 2 files

The last line is on standard error. `cilhost session --help` says what each NUMBER means.

Exit status:
  0  there is no fault
  1  there are faults, or a FILE that cannot be read as CIL
  2  wrong arguments
  3  a file or standard output failed
  4  out of memory";

/// The requests of a session, the numbers in its replies, an example and the exit statuses.
pub const REQUESTS: &str = "Requests:
  INSTALL n               Install a module: the n bytes after this line. Reply: OK new, OK known,
                          or ERR with the number of the fault and its place in bytes
  LOAD                    Compile the installed modules, and answer from them from now on. Reply:
                          OK LENGTH DIGEST, or FAULTS with how many there are, and a line for each.
                          LENGTH and DIGEST are the length in bytes and the SHA-256 of the compiled
                          policy: hosts with the same modules print the same line. After FAULTS the
                          policy is the one that was loaded before
  AV source target class  What a process in the context source may do to an object of this class
                          in the context target. A context is user:role:type, where a type t of
                          block b is b.t, and an alias stands for its type. With (mls true) in the
                          policy a level follows, or a low and a high one, as in u:r:t:s0 and
                          u:r:t:s0-s1:c0.c3,c5. Reply: OK, then the permissions that are allowed,
                          those audited when allowed, and those audited when denied (- for none),
                          or ERR. Nothing is allowed for which a constraint is false, nor a change
                          of role that no roleallow lets
  CHECK source target class permission
                          Whether AV of the first three lists this permission as allowed. Reply:
                          OK yes, OK no, or ERR
  SET boolean value       Turn a boolean of the policy on (true) or off (false): rules in branches
                          of a booleanif count by that from now on. A boolean b of block c is c.b.
                          An accepted LOAD gives each boolean its default. Reply: OK, or ERR
  OPTIONALS               Which optionals of the policy are in force. Reply: OK with their number;
                          for each its module, place, namespace and label, as of a fault below, and
                          in where it is in force, else out; or ERR
  WHY                     Why optionals of the policy are out, in an order in which they were taken
                          out. Reply: OK with their number; for each its module, place, namespace
                          and label, and then parent where the optional round it is out, or missing
                          and a word that names nothing; or ERR
  LIST                    Reply: OK with the number of modules; for each its SHA-256 and its length
  EXPORT                  Reply: OK n, then n bytes: all modules, for IMPORT on another host
  IMPORT n                Install the modules of such n bytes after this line. Reply: OK with the
                          number of new modules, or ERR
  QUIT                    End the session. Reply: OK

Faults of a policy, one a line after FAULTS: NUMBER MODULE PLACE NAMESPACE WORD
  MODULE is the number of the module in the reply to LIST, from 0. PLACE is the place of the fault
  in the module, in bytes from 0. NAMESPACE is . for the global namespace, else names of blocks
  joined by dots: for 21 to 33 where the statement is written, for the others where it takes effect,
  by inheritance or by a call. WORD is - where no word is meant.
  21  an unknown statement
  22  a statement or form that cilhost does not support
  23  a statement of another shape
  24  a statement in a wrong place, such as a class in a macro or in an optional, or a type in a
      branch of a booleanif
  25  a word that is not a name
  26  a reserved word in place of a name
  27  a parameter of a macro whose name is used again, by another one or by a declaration
  31  two blocks or macros of one name in a namespace, inherited ones included
  32  a blockinherit that names no block
  33  a block that inherits itself, in one or more steps
  34  a macro that calls itself, in one or more steps
  35  a call with too few or too many arguments, or with one of a wrong form, such as a list where
      the macro needs a name
  36  a name with two different declarations
  37  a call in a branch of a booleanif that brings what may not be in one
  38  more than 1000000 statements, with those that are inherited or come by calls. It is reported
      alone, with module 0, place 0 and - as the word
  41  a word outside optionals that names nothing
  51  an alias without a target
  52  an alias with two different targets
  53  an alias that leads to itself, in one or more steps
  54  an attribute, or a set of categories, that depends on itself, in one or more steps
  55  a class of more than 32 permissions
  56  a class with two different commons
  57  the sensitivityorder statements leave the sensitivities more than one order, or none
  58  the categoryorder statements leave the categories more than one order, or none
  59  mls both true and false. Like 57 and 58 it has module 0, place 0 and - as the word
  60  more than 65535 types, 1024 classes, 4096 roles, users or booleans, 256 sensitivities or 1024
      categories: WORD says which. It has module 0 and place 0
  61  a level with a category that no sensitivitycategory permits to its sensitivity
  62  a range whose high level does not dominate its low one, or a range of categories of which the
      second is before the first
  63  a user without a userrange, where mls is true
  64  a user with two different ranges
  65  a neverallow and an allow that cover the same, in whatever branches, at the neverallow. WORD
      is the module and place of the allow, and a source, target, class and permission that both
      cover, joined by colons

From MODULE and PLACE to a file and a line: `cilhost locate FILE..` prints both. In a session:
  1. LIST replies OK, and then a line for each module: MODULE 0 is the first of these lines. It
     begins with the SHA-256 of the module.
  2. `sha256sum FILE..` prints the SHA-256 of each FILE: the file is the one with the same.
  3. `head -c PLACE FILE | wc -l` prints how many lines end before the fault. Plus one, that is the
     line of the fault.

Other numbers, after ERR:
  0         out of memory; nothing has changed
  1 to 7    A text cannot be read. 1: it is longer than 4194304 bytes. 2: a list is not closed.
            3: a ) closes nothing. 4: a string is not closed on its line. 5: a byte that is not
            allowed in a text. 6: lists are nested more than 128 deep. 7: a word or string is
            outside all lists
  11 to 15  A bundle cannot be read. 11: it does not begin as one. 12: it is cut off. 13: a module
            does not come after the one before it in byte order. 14: a module cannot be read; its
            number, from 0, and the number and place of its text's fault follow. 15: bytes follow
            its last module
  71 to 75  A query has no answer, or no boolean is set. 71: no policy is loaded, for AV, CHECK,
            SET, OPTIONALS or WHY. 72 1: the source is not a valid context. 72 2: the target is not.
            73: there is no such class. 74: the class has no such permission, for CHECK. 75: there
            is no such boolean, for SET
  81        There is no such request; the session goes on
  82 to 85  The session ends. 82: a line has more than 4096 bytes. 83: the input ends in a line, or
            in the bytes after one. 84: more than 67108864 bytes are announced. 85: it has had
            1000000 requests

Example:
  $ printf 'LOAD\\nAV u:r:a u:r:b file\\nQUIT\\n' | cilhost session base.cil app.cil
  OK 159 d45931ea9f06a9ced7e809682adb159f8b38c8e71f6a219ba0a5eab997e73225
  OK read - open,read
  OK

Exit status:
  0  the session ended by QUIT or at the end of the input. A LOAD that was refused does not change
     this: read its reply, which is FAULTS
  1  a FILE was refused; standard error has its first fault: its number and its place in bytes
  2  wrong arguments, or input after which no session can go on (a reply ERR 82 to 85)
  3  a file, standard input or standard output failed. An output that is closed before the last
     reply is written has failed
  4  out of memory";
